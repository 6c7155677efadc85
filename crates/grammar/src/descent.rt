// Expressions, by recursive descent. Each makes its node after its parts and gives its position. `sum` and `product` have a loop each: a parameter for what they join would have to carry the clauses of a walk that calls it back.
ghost use Rattle.std.specs.Prelude.{suc, ◌<◌, true, length, OnOk};
ghost use Rattle.grammar.specs.Parsers.{seq, want};
ghost use Rattle.grammar.specs.Sheets.{expr_s, sum_s, product_s, atom_s, args_s, name_by, bracket_by, let_by, if_by, put_by, conditions_s};
ghost use Rattle.grammar.specs.Held.{held, look, Went, Stands, ArgsStand, Paid, Owed, OwedTwo};

use crate::misplaced::Misplaced;
use crate::node::Node;
use crate::parser::Parser;
use letters::Kind;

impl Parser<'_, '_, '_> {
    // Which kind is at hand is asked by `sees`, one after another, and not by a match: `sees` also promises that the token is inside, which `bump` asks for.
    #[cycle(args_atom_binding_bracket_choice_expr_named_product_putting_sum)]
    pub fn expr(&mut self) -> Result<usize, Misplaced>
        ensures went { Went Stands result expr_s (held self.old) (held self.new) }
        ensures paid { Paid (held self.old) (held self.new) }
    {
        if self.sees(Kind::Let) {
            let token = self.bump();
            self.binding(token)
        } else if self.sees(Kind::If) {
            let token = self.bump();
            self.choice(token)
        } else if self.sees(Kind::Put) {
            let token = self.bump();
            self.putting(token)
        } else {
            self.sum()
        }
    }

    // What follows `let`.
    #[cycle(args_atom_binding_bracket_choice_expr_named_product_putting_sum)]
    fn binding(&mut self, token: usize) -> Result<usize, Misplaced>
        ensures went { Went Stands result (λ f. let_by (expr_s f) (look (held self.old) token)) (held self.old) (held self.new) }
        ensures paid { Paid (held self.old) (held self.new) }
    {
        let name = self.take(Kind::Name)?;
        self.take(Kind::Equal)?;
        let bound = self.expr()?;
        self.take(Kind::In)?;
        let body = self.expr()?;
        Ok(self.push(Node::Bind {
            keyword: token,
            name,
            bound,
            body,
        }))
    }

    // What follows `if`.
    #[cycle(args_atom_binding_bracket_choice_expr_named_product_putting_sum)]
    fn choice(&mut self, token: usize) -> Result<usize, Misplaced>
        ensures went { Went Stands result (λ f. if_by (sum_s f) (expr_s f) (look (held self.old) token)) (held self.old) (held self.new) }
        ensures paid { Paid (held self.old) (held self.new) }
    {
        let left = self.sum()?;
        let sign = self.comparison(true)?;
        let right = self.sum()?;
        self.take(Kind::Then)?;
        let met = self.expr()?;
        self.take(Kind::Else)?;
        let unmet = self.expr()?;
        Ok(self.push(Node::Test {
            keyword: token,
            sign,
            left,
            right,
            met,
            unmet,
        }))
    }

    // What follows `put`.
    #[cycle(args_atom_binding_bracket_choice_expr_named_product_putting_sum)]
    fn putting(&mut self, token: usize) -> Result<usize, Misplaced>
        ensures went { Went Stands result (λ f. put_by (sum_s f) (expr_s f) (look (held self.old) token)) (held self.old) (held self.new) }
        ensures paid { Paid (held self.old) (held self.new) }
    {
        let name = self.take(Kind::Name)?;
        self.take(Kind::OpenSquare)?;
        let index = self.sum()?;
        self.take(Kind::CloseSquare)?;
        self.take(Kind::Becomes)?;
        let value = self.sum()?;
        self.take(Kind::In)?;
        let rest = self.expr()?;
        Ok(self.push(Node::Put {
            keyword: token,
            name,
            index,
            value,
            rest,
        }))
    }

    #[cycle(args_atom_binding_bracket_choice_expr_named_product_putting_sum)]
    fn sum(&mut self) -> Result<usize, Misplaced>
        ensures went { Went Stands result sum_s (held self.old) (held self.new) }
        ensures paid { Paid (held self.old) (held self.new) }
    {
        let mut left = self.product()?;
        while self.sees_sum_sign() {
            let sign = self.bump();
            let right = self.product()?;
            left = self.push(Node::Calc { sign, left, right });
        }
        Ok(left)
    }

    #[cycle(args_atom_binding_bracket_choice_expr_named_product_putting_sum)]
    fn product(&mut self) -> Result<usize, Misplaced>
        ensures went { Went Stands result product_s (held self.old) (held self.new) }
        ensures paid { Paid (held self.old) (held self.new) }
    {
        let mut left = self.atom()?;
        while self.sees(Kind::Times) {
            let sign = self.bump();
            let right = self.atom()?;
            left = self.push(Node::Calc { sign, left, right });
        }
        Ok(left)
    }

    // By `sees` and not by a match, as `expr`.
    #[cycle(args_atom_binding_bracket_choice_expr_named_product_putting_sum)]
    fn atom(&mut self) -> Result<usize, Misplaced>
        ensures went { Went Stands result atom_s (held self.old) (held self.new) }
        ensures paid { Paid (held self.old) (held self.new) }
    {
        if self.sees(Kind::Numeral) {
            let token = self.bump();
            Ok(self.push(Node::Num { token }))
        } else if self.sees(Kind::Name) {
            self.named()
        } else if self.sees(Kind::Open) {
            let token = self.bump();
            self.bracket(token)
        } else {
            Err(self.fault())
        }
    }

    // A name, and what it begins: an element of a list, a call, or the name alone.
    #[cycle(args_atom_binding_bracket_choice_expr_named_product_putting_sum)]
    fn named(&mut self) -> Result<usize, Misplaced>
        ensures went { Went Stands result (λ f. seq (want Kind.Name) (name_by (sum_s f) (args_s f))) (held self.old) (held self.new) }
        ensures paid { Paid (held self.old) (held self.new) }
    {
        let name = self.take(Kind::Name)?;
        if self.sees(Kind::OpenSquare) {
            self.bump();
            let index = self.sum()?;
            self.take(Kind::CloseSquare)?;
            Ok(self.push(Node::Read { name, index }))
        } else if self.sees(Kind::Open) {
            self.bump();
            let args = self.args()?;
            Ok(self.push(Node::Call { name, args }))
        } else {
            Ok(self.push(Node::Name { token: name }))
        }
    }

    // What a bracket begins, which was passed: an expression, or one with conditions that it is to meet.
    #[cycle(args_atom_binding_bracket_choice_expr_named_product_putting_sum)]
    fn bracket(&mut self, token: usize) -> Result<usize, Misplaced>
        ensures went { Went Stands result (λ f. bracket_by (expr_s f) (conditions_s true f) (look (held self.old) token)) (held self.old) (held self.new) }
        ensures paid { Paid (held self.old) (held self.new) }
    {
        let inner = self.expr()?;
        if self.sees(Kind::As) {
            let keyword = self.bump();
            let first = self.at;
            self.conditions(true)?;
            self.take(Kind::Close)?;
            Ok(self.push(Node::Claim {
                keyword,
                conditions: first,
                inner,
            }))
        } else {
            self.take(Kind::Close)?;
            Ok(self.push(Node::Nest {
                bracket: token,
                inner,
            }))
        }
    }

    // The arguments up to and with their closing bracket; name and bracket were passed, and have made no node yet.
    #[cycle(args_atom_binding_bracket_choice_expr_named_product_putting_sum)]
    fn args(&mut self) -> Result<usize, Misplaced>
        requires { suc (length (held self.old).nodes) < (held self.old).at }
        ensures went { Went ArgsStand result args_s (held self.old) (held self.new) }
        ensures paid { OwedTwo (held self.old) (held self.new) }
        ensures settled { OnOk result (Owed (held self.old) (held self.new)) }
    {
        let none = self.push(Node::NoArgs);
        if self.sees(Kind::Close) {
            self.bump();
            return Ok(none);
        }
        let first = self.sum()?;
        let mut args = self.push(Node::Arg {
            before: none,
            last: first,
        });
        while self.sees(Kind::Comma) {
            self.bump();
            let next = self.sum()?;
            args = self.push(Node::Arg {
                before: args,
                last: next,
            });
        }
        self.take(Kind::Close)?;
        Ok(args)
    }
}
