ghost use Rattle.std.specs.Prelude.{◌≡◌, ◌≤◌, length};
ghost use Rattle.std.specs.Iterator.{item_count};
ghost use Rattle.grammar.specs.Stretches.{past, condition_at, conditions_at, optional_at};
ghost use Rattle.grammar.specs.Trees.{look_of};
ghost use Rattle.naming.specs.Sides.{raw_condition, conditions_left, GivesCondition};
ghost use Rattle.naming.specs.Sources.{source_of};

use crate::condition::{Condition, Conditions};
use crate::written::Written;
use letters::Kind;

impl<'t> Written<'t> {
    // The condition at a position, and the position after it.
    fn condition(self, at: usize) -> (Condition<'t>, usize)
        requires { at ≤ 16384 }
        ensures read { condition_at (length self.entry.tokens.now) (look_of (source_of self.entry)) at ≡ past (raw_condition result.0) result.1 }
        ensures sheets { (result.0.left.sheet ≡ self.entry) × (result.0.right.sheet ≡ self.entry) }
    {
        let left = self.items(at);
        let sign = left.end();
        let right = self.items(sign + 1);
        let comparison = self.token(sign);
        (
            Condition {
                left,
                comparison,
                right,
            },
            right.end(),
        )
    }

    // The conditions at a position.
    pub fn conditions(self, at: usize) -> Conditions<'t>
        ensures conditions { conditions_left result ≡ (conditions_at (length self.entry.tokens.now) (look_of (source_of self.entry)) at).value }
        ensures sheet { result.sheet ≡ self.entry }
    {
        Conditions {
            sheet: self,
            next: Some(at.min(self.tokens.len())),
            rest: self.tokens.len(),
        }
    }

    // The conditions after a keyword, if that stands at a position.
    pub fn optional(self, keyword: Kind, at: usize) -> Conditions<'t>
        ensures conditions { conditions_left result ≡ optional_at (length self.entry.tokens.now) (look_of (source_of self.entry)) keyword at }
        ensures sheet { result.sheet ≡ self.entry }
    {
        if !self.token(at).is(keyword) {
            return Conditions {
                sheet: self,
                next: None,
                rest: 0,
            };
        }
        self.conditions(at.saturating_add(1))
    }
}

// `Params` and `Items` go on in the same way, past a joint. A trait for the three would say of each what is read, what it stands for and how, in more lines than they share.
impl<'t> Iterator for Conditions<'t> {
    type Item = Condition<'t>;

    ghost next_gives = { GivesCondition };

    ghost remaining = { item_count conditions_left };

    fn next(&mut self) -> Option<Condition<'t>> {
        let at = self.next?;
        let (condition, end) = self.sheet.condition(at);
        let joins = self.sheet.token(end).is(Kind::Comma);
        self.next = self.sheet.past_joint(joins, self.rest, end);
        self.rest = self.rest.saturating_sub(1);
        Some(condition)
    }
}
