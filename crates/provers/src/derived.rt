ghost use Rattle.std.specs.Prelude.{◌≡◌};
ghost use Rattle.provers.specs.Derivations.{original};

use rows::{MOST_FACTS, QUANTITIES, Row};
use std::array;

// One multiplier for each fact, and one for the negated goal.
pub const MULTIPLIERS: usize = MOST_FACTS + 1;

// A row of kind at most that was derived from the facts and the negated goal: the multipliers say how.
#[derive(Clone, Copy, Debug, PartialEq, Eq, Default)]
pub struct Derived {
    pub coefs: [i32; QUANTITIES],
    pub bound: i32,
    // One for each fact in order, of which there are at most 24, then one for the negated goal; the rest are 0.
    pub times: [u32; MULTIPLIERS],
}

impl Derived {
    // The row itself, as the i-th of the facts and the negated goal.
    pub(crate) fn original(i: usize, row: &Row) -> Derived
        ensures { result ≡ original i row.now }
    {
        Derived {
            coefs: row.coefs(),
            bound: row.bound(),
            times: array::from_fn(|k| if k == i { 1 } else { 0 }),
        }
    }
}
