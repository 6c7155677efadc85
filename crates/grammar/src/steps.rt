ghost use Rattle.std.specs.Prelude.{◌≡◌, ℕ, Bool, suc, ◌<◌, true, length, OnOk, ◌≢◌};
ghost use Rattle.letters.specs.Kinds.{number};
ghost use Rattle.grammar.specs.Parsers.{is_a, wanted, want};
ghost use Rattle.grammar.specs.Sheets.{sum_sign, compares};
ghost use Rattle.grammar.specs.Sheets.{quantity as stood};
ghost use Rattle.grammar.specs.Held.{held, look, token_count, Went, Taken, Bumped, Pushed, SameCount};

use crate::misplaced::Misplaced;
use crate::node::Node;
use crate::parser::Parser;
use letters::{Kind, Token};

impl Parser<'_, '_, '_> {
    // The token at hand; past the last, one at the text's end.
    fn peek(&self) -> Token
        ensures { result ≡ look (held self.now) (held self.now).at }
    {
        self.source.token(self.at)
    }

    // The token at hand is of this kind, which is not the end's: an end stands past the last token and is never taken. Each caller names its kind, so the clause that asks for this is met by computing, and a type of kinds without the end would only stand beside Kind.
    pub(crate) fn sees(&self, kind: Kind) -> bool
        requires { number kind ≢ number Kind.End }
        ensures told { result ≡ is_a kind (look (held self.now) (held self.now).at) }
        ensures inside { result ≡ true → (held self.now).at < token_count (held self.now) }
    {
        self.source.stands(self.at, kind)
    }

    // There is no token left.
    pub(crate) fn ended(&self) -> bool
        ensures { result ≡ is_a Kind.End (look (held self.now) (held self.now).at) }
    {
        self.peek().is(Kind::End)
    }

    // The token at hand joins the parts of a sum.
    pub(crate) fn sees_sum_sign(&self) -> bool
        ensures told { result ≡ sum_sign (look (held self.now) (held self.now).at) }
        ensures inside { result ≡ true → (held self.now).at < token_count (held self.now) }
    {
        self.sees(Kind::Plus) || self.sees(Kind::Minus)
    }

    // The token at hand compares; `!=` does so only in a test. A flag, since a test's signs and a condition's differ in that one alone: two functions would name the three others twice.
    fn sees_comparison(&self, tested: bool) -> bool
        ensures told { result ≡ compares tested (look (held self.now) (held self.now).at) }
        ensures inside { result ≡ true → (held self.now).at < token_count (held self.now) }
    {
        self.sees(Kind::Less)
            || self.sees(Kind::AtMost)
            || self.sees(Kind::Equal)
            || tested && self.sees(Kind::Unequal)
    }

    // The token at hand is a name or, where that may stand, `result`.
    fn sees_quantity(&self, with_result: bool) -> bool
        ensures told { result ≡ stood with_result (look (held self.now) (held self.now).at) }
        ensures inside { result ≡ true → (held self.now).at < token_count (held self.now) }
    {
        self.sees(Kind::Name) || with_result && self.sees(Kind::TheResult)
    }

    // Goes past the token at hand, which is not the end, and gives its number.
    pub(crate) fn bump(&mut self) -> usize
        requires { (held self.old).at < token_count (held self.old) }
        ensures token { result ≡ (held self.old).at }
        ensures bumped { Bumped (held self.old) (held self.new) }
    {
        let token = self.at;
        self.at += 1;
        token
    }

    // No sheet has the token at hand here.
    pub(crate) fn fault(&self) -> Misplaced
        ensures { result.place ≡ (look (held self.now) (held self.now).at).place }
    {
        Misplaced {
            place: self.peek().place,
        }
    }

    // Takes the token at hand where it fits.
    fn take_if(&mut self, fits: bool) -> Result<usize, Misplaced>
        requires { fits ≡ true → (held self.old).at < token_count (held self.old) }
        ensures went { (b : Token → Bool) → fits ≡ b (look (held self.old) (held self.old).at) → Went Taken result (λ _. wanted b) (held self.old) (held self.new) }
        ensures count { SameCount (held self.old) (held self.new) }
        ensures past { OnOk result ((held self.new).at ≡ suc (held self.old).at) }
    {
        if fits {
            Ok(self.bump())
        } else {
            Err(self.fault())
        }
    }

    // Takes a token that is to be of this kind.
    pub(crate) fn take(&mut self, kind: Kind) -> Result<usize, Misplaced>
        requires { number kind ≢ number Kind.End }
        ensures went { Went Taken result (λ _. want kind) (held self.old) (held self.new) }
        ensures count { SameCount (held self.old) (held self.new) }
        ensures past { OnOk result ((held self.new).at ≡ suc (held self.old).at) }
    {
        self.take_if(self.sees(kind))
    }

    // Takes a comparison, by the flag of `sees_comparison`.
    pub(crate) fn comparison(&mut self, tested: bool) -> Result<usize, Misplaced>
        ensures went { Went Taken result (λ _. wanted (compares tested)) (held self.old) (held self.new) }
        ensures count { SameCount (held self.old) (held self.new) }
        ensures past { OnOk result ((held self.new).at ≡ suc (held self.old).at) }
    {
        self.take_if(self.sees_comparison(tested))
    }

    // Takes a name or, where that may stand, `result`.
    pub(crate) fn quantity(&mut self, with_result: bool) -> Result<usize, Misplaced>
        ensures went { Went Taken result (λ _. wanted (stood with_result)) (held self.old) (held self.new) }
        ensures count { SameCount (held self.old) (held self.new) }
    {
        self.take_if(self.sees_quantity(with_result))
    }

    // Makes a node, for which a token was passed that no other node has, so there is room for it, and gives its position.
    pub(crate) fn push(&mut self, node: Node) -> usize
        requires { length (held self.old).nodes < (held self.old).at }
        ensures { Pushed result node (held self.old) (held self.new) }
    {
        let here = self.nodes.mark();
        self.nodes.push(node).unwrap();
        here
    }
}
