// Conditions and params: flat stretches of tokens, for which no node is made. Whether `result` may stand is a flag: what follows `needs` and what follows `gives` differ in that alone, so two functions would say each stretch twice. Each stretch has its own loop, since they differ in the function that they call, whose clauses a parameter for it would repeat.
ghost use Rattle.std.specs.Prelude.{◌≡◌, ◌<◌, Bool, true, false, ◌≢◌};
ghost use Rattle.letters.specs.Kinds.{number};
ghost use Rattle.grammar.specs.Parsers.{wanted};
ghost use Rattle.grammar.specs.Sheets.{item_s, side_s, condition_s, conditions_s, optional_s, param_s, params_s};
ghost use Rattle.grammar.specs.Held.{held, look, token_count, Went, Any, SameCount};

use crate::misplaced::Misplaced;
use crate::parser::Parser;
use letters::Kind;

impl Parser<'_, '_, '_> {
    // An item, whether a minus stands before it or not.
    fn item(&mut self, with_result: bool) -> Result<(), Misplaced>
        ensures went { (m : Bool) → Went Any result (λ _. item_s with_result m) (held self.old) (held self.new) }
        ensures count { SameCount (held self.old) (held self.new) }
    {
        if self.sees(Kind::Numeral) {
            self.bump();
            if self.sees(Kind::Times) {
                self.bump();
                self.quantity(with_result)?;
            }
        } else {
            self.quantity(with_result)?;
        }
        Ok(())
    }

    fn side(&mut self, with_result: bool) -> Result<(), Misplaced>
        ensures went { Went Any result (side_s with_result) (held self.old) (held self.new) }
        ensures count { SameCount (held self.old) (held self.new) }
    {
        self.item(with_result)?;
        while self.sees_sum_sign() {
            self.bump();
            self.item(with_result)?;
        }
        Ok(())
    }

    fn condition(&mut self, with_result: bool) -> Result<(), Misplaced>
        ensures went { Went Any result (condition_s with_result) (held self.old) (held self.new) }
        ensures count { SameCount (held self.old) (held self.new) }
    {
        self.side(with_result)?;
        self.comparison(false)?;
        self.side(with_result)
    }

    pub(crate) fn conditions(&mut self, with_result: bool) -> Result<(), Misplaced>
        ensures went { Went Any result (conditions_s with_result) (held self.old) (held self.new) }
        ensures count { SameCount (held self.old) (held self.new) }
    {
        self.condition(with_result)?;
        while self.sees(Kind::Comma) {
            self.bump();
            self.condition(with_result)?;
        }
        Ok(())
    }

    // Conditions after a keyword, if that stands there. `needs` and `gives` differ in their keyword and in the flag alone, so both are read here.
    pub(crate) fn optional(&mut self, kind: Kind, with_result: bool) -> Result<(), Misplaced>
        requires { number kind ≢ number Kind.End }
        ensures went { Went Any result (optional_s kind with_result) (held self.old) (held self.new) }
        ensures count { SameCount (held self.old) (held self.new) }
    {
        if self.sees(kind) {
            self.bump();
            self.conditions(with_result)
        } else {
            Ok(())
        }
    }

    fn param(&mut self) -> Result<(), Misplaced>
        ensures went { Went Any result (λ _. param_s) (held self.old) (held self.new) }
        ensures count { SameCount (held self.old) (held self.new) }
    {
        self.take(Kind::Name)?;
        if self.sees(Kind::OpenSquare) {
            self.bump();
            self.take(Kind::Name)?;
            self.take(Kind::CloseSquare)?;
        }
        Ok(())
    }

    // The params up to and with their closing bracket.
    pub(crate) fn params(&mut self) -> Result<(), Misplaced>
        ensures went { Went Any result params_s (held self.old) (held self.new) }
        ensures count { SameCount (held self.old) (held self.new) }
    {
        if self.sees(Kind::Close) {
            self.bump();
            return Ok(());
        }
        self.param()?;
        while self.sees(Kind::Comma) {
            self.bump();
            self.param()?;
        }
        self.take(Kind::Close)?;
        Ok(())
    }
}
