ghost use Rattle.std.specs.Prelude.{◌≡◌, ◌++◌};
ghost use Rattle.naming.specs.Faults.{atom_faults, side_faults, condition_faults};
ghost use Rattle.naming.specs.Least.{least};
ghost use Rattle.naming.specs.Reaches.{tokens_of};
ghost use Rattle.naming.specs.Sides.{side_left, raw_condition, conditions_left};

use crate::condition::{Condition, Conditions};
use crate::least::earlier;
use crate::side::Items;
use crate::written::Written;
use letters::{Kind, Token};

impl Written<'_> {
    // A name in a condition is a number's.
    fn atom_fault(self, names: &[usize], atom: Token) -> Option<usize>
        ensures { result ≡ least (atom_faults self.entry.text.now (tokens_of self.entry names.now) atom) }
    {
        if atom.is(Kind::Name) {
            self.unknown(names, atom)
        } else {
            None
        }
    }

    // The first name in a side that is no number's.
    fn side_fault(self, names: &[usize], side: Items<'_>) -> Option<usize>
        ensures { result ≡ least (side_faults self.entry.text.now (tokens_of self.entry names.now) (side_left side.entry)) }
    {
        side.fold(
            None,
            |fault, signed| earlier(fault, self.atom_fault(names, signed.item.atom)),
        )
    }

    fn condition_fault(self, names: &[usize], condition: Condition<'_>) -> Option<usize>
        ensures { result ≡ least (side_faults self.entry.text.now (tokens_of self.entry names.now) (raw_condition condition.entry).left ++ side_faults self.entry.text.now (tokens_of self.entry names.now) (raw_condition condition.entry).right) }
    {
        earlier(
            self.side_fault(names, condition.left),
            self.side_fault(names, condition.right),
        )
    }

    // The first name in conditions that is no number's.
    pub(crate) fn conditions_fault(
        self,
        names: &[usize],
        conditions: Conditions<'_>,
    ) -> Option<usize>
        ensures { result ≡ least (condition_faults self.entry.text.now (tokens_of self.entry names.now) (conditions_left conditions.entry)) }
    {
        conditions.fold(
            None,
            |fault, condition| earlier(fault, self.condition_fault(names, condition)),
        )
    }
}
