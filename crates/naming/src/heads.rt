ghost use Rattle.std.specs.Prelude.{◌≡◌, ◌<◌, ◌≤◌, true, drop, length, is_some, unwrap_or};
ghost use Rattle.std.specs.Iterator.{item_count};
ghost use Rattle.grammar.specs.Stretches.{params_at, param_at, past};
ghost use Rattle.grammar.specs.Trees.{look_of};
ghost use Rattle.naming.specs.Faults.{length_at};
ghost use Rattle.naming.specs.Sources.{source_of};
ghost use Rattle.naming.specs.Stretching.{left, next_after, written, Gives};

use crate::head::{Param, Params};
use crate::written::Written;
use letters::Kind;

impl<'t> Written<'t> {
    // The parameter at a position, and the position after it.
    fn param(self, at: usize) -> (Param, usize)
        requires { at ≤ 16384 }
        ensures { param_at (look_of (source_of self.entry)) at ≡ past (written (look_of (source_of self.entry)) result.0) result.1 }
    {
        if self.token(at + 1).is(Kind::OpenSquare) {
            let length = Some(at + 2);
            (Param { name: at, length }, at + 4)
        } else {
            (
                Param {
                    name: at,
                    length: None,
                },
                at + 1,
            )
        }
    }

    // Where the next begins after one that ends at a position: past the token there, if it joins the two and there may be more. Only then does the sum stay within its type, so it stands in a branch.
    pub(crate) fn past_joint(self, joins: bool, rest: usize, end: usize) -> Option<usize>
        requires { joins ≡ true → end < length self.tokens.now }
        ensures told { result ≡ next_after joins rest end }
        ensures near { unwrap_or result 0 ≤ 16384 }
    {
        if rest > 0 && joins {
            Some(end + 1)
        } else {
            None
        }
    }

    // The parameters that begin at a position.
    pub fn params(self, at: usize) -> Params<'t>
        ensures params { left result ≡ params_at (length self.entry.tokens.now) (look_of (source_of self.entry)) at }
        ensures sheet { result.sheet ≡ self.entry }
    {
        let at = at.min(self.tokens.len());
        let next = (!self.token(at).is(Kind::Close)).then_some(at);
        Params {
            sheet: self,
            next,
            rest: self.tokens.len(),
        }
    }
}

impl Params<'_> {
    // How many there are.
    pub fn number(self) -> usize
        ensures { result ≡ length (left self.entry) }
    {
        self.count()
    }

    // Whether the next parameter is a list; past the last there is none.
    pub fn wants_list(&mut self) -> bool
        ensures list { result ≡ is_some (length_at (left self.old) 0) }
        ensures left { left self.new ≡ drop 1 (left self.old) }
        ensures sheet { self.new.sheet ≡ self.old.sheet }
    {
        self.next().is_some_and(|param| param.length.is_some())
    }
}

impl Iterator for Params<'_> {
    type Item = Param;

    ghost next_gives = { Gives };

    ghost remaining = { item_count left };

    fn next(&mut self) -> Option<Param> {
        let at = self.next?;
        let (param, end) = self.sheet.param(at);
        let joins = self.sheet.token(end).is(Kind::Comma);
        self.next = self.sheet.past_joint(joins, self.rest, end);
        self.rest = self.rest.saturating_sub(1);
        Some(param)
    }
}
