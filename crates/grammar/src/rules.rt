ghost use Rattle.std.specs.Prelude.{◌≡◌, ◌<◌, [], length};
ghost use Rattle.grammar.specs.Sheets.{rule_s};
ghost use Rattle.grammar.specs.Held.{held, look, Went, RuleStands, Paid};
ghost use Rattle.grammar.specs.Parsed.{Ruled, Parsed};
ghost use Rattle.grammar.specs.Lawful.{Lawful};

use crate::misplaced::Misplaced;
use crate::node::Node;
use crate::parser::Parser;
use crate::tokens::Tokens;
use crate::unread::Unread;
use letters::Kind;
use pile::Pile;

impl Parser<'_, '_, '_> {
    // The rule whose keyword was passed.
    fn rule(&mut self, token: usize) -> Result<Node, Misplaced>
        ensures went { Went RuleStands result (rule_s (look (held self.old) token)) (held self.old) (held self.new) }
        ensures paid { Paid (held self.old) (held self.new) }
    {
        let name = self.take(Kind::Name)?;
        self.take(Kind::Open)?;
        let params = self.at;
        self.params()?;
        let needs = self.at;
        self.optional(Kind::Needs, false)?;
        let gives = self.at;
        self.optional(Kind::Gives, true)?;
        self.take(Kind::Equal)?;
        let body = self.expr()?;
        self.take(Kind::Semicolon)?;
        Ok(Node::Rule {
            keyword: token,
            name,
            params,
            needs,
            gives,
            body,
        })
    }

    // All rules, up to the end of the tokens.
    fn rules(&mut self) -> Result<(), Misplaced>
        requires { (held self.old).nodes ≡ [] }
        ensures { Ruled result (held self.old) (held self.new) }
    {
        while self.sees(Kind::Rule) {
            let token = self.bump();
            let rule = self.rule(token)?;
            self.push(rule);
        }
        if self.ended() {
            Ok(())
        } else {
            Err(self.fault())
        }
    }
}

// The tree of a sheet, in nodes, of which the count is given. What a refusal leaves in the nodes is not said.
pub fn parse(source: Tokens<'_>, nodes: &mut [Node]) -> Result<usize, Unread>
    ensures parsed { Parsed result source.entry.tokens.now source.entry.end (length nodes.old) nodes.new }
    ensures law { Lawful result source.entry.tokens.now source.entry.end nodes.new }
{
    if nodes.len() < source.tokens.len() {
        return Err(Unread::Full);
    }
    let mut made = Pile::over(nodes);
    let mut parser = Parser {
        source,
        at: 0,
        nodes: &mut made,
    };
    parser.rules()?;
    Ok(made.mark())
}
