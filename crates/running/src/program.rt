ghost use Rattle.std.specs.Prelude.{◌≡◌, suc, List};
ghost use Rattle.language.specs.Running.{State, quiet, part_at, in_range};
ghost use Rattle.language.specs.Running as Running;
ghost use Rattle.language.specs.Tree.{Expr};
ghost use Rattle.language.specs.Vocabulary.{reckoned};
ghost use Rattle.language.specs.Drafts.{marked};
ghost use Rattle.running.specs.Ending.{outcome_of, program_of};

use language::{Ending, Operator, Part};
use records::Record;

// What is run: the records that a sheet lies in, the range, and for each check whether it is dropped. A check past the last is made.
#[derive(Clone, Copy)]
pub struct Program<'r, 'm> {
    pub records: &'r [Record],
    pub low: i32,
    pub high: i32,
    pub dropped: &'m [bool],
}

// Where a run stopped, and how.
#[derive(Clone, Copy, Debug, PartialEq, Eq)]
pub struct Stop {
    pub kind: Ending,
    pub place: usize,
}

// What is answered where no expression or argument stands, which no sheet that was read has.
pub(crate) const ASTRAY: Stop = Stop {
    kind: Ending::Value,
    place: 0,
};

// The sum, difference or product of two values.
pub(crate) fn reckoned(operator: Operator, x: i32, y: i32) -> i64
    ensures { result ≡ reckoned operator x y }
{
    let (x, y) = (i64::from(x), i64::from(y));
    match operator {
        Operator::Sum => x + y,
        Operator::Difference => x - y,
        Operator::Product => x * y,
    }
}

// The part of a list, by its slot.
pub(crate) fn part_at(parts: &[Part], list: usize) -> Part
    ensures { result ≡ part_at parts.now list }
{
    parts.get(list).copied().unwrap_or(Part {
        start: 0,
        length: 0,
    })
}

impl Program<'_, '_> {
    // Whether a value lies in the range.
    fn has(self, value: i64) -> bool
        ensures { result ≡ in_range self.entry.low self.entry.high value }
    {
        i64::from(self.low) <= value && value <= i64::from(self.high)
    }

    // A value that was worked out at a place; outside the range it stops.
    pub(crate) fn fit(self, place: usize, value: i64) -> Result<i32, Stop>
        ensures { (bodies : List Expr) (s : State) → Running.fit (program_of self.entry bodies) place value s ≡ quiet (outcome_of result s) }
    {
        if !self.has(value) {
            return Err(Stop {
                kind: Ending::Range,
                place,
            });
        }
        Ok(value as i32)
    }

    // Whether the check with this number is dropped.
    pub(crate) fn drops(self, number: usize) -> bool
        ensures { result ≡ marked self.entry.dropped.now number }
    {
        self.dropped.get(number).copied().unwrap_or(false)
    }

    // Whether the check after the one with this number is dropped.
    pub(crate) fn drops_next(self, number: usize) -> bool
        ensures { result ≡ marked self.entry.dropped.now (suc number) }
    {
        match self.dropped {
            [_, rest @ ..] => rest.get(number).copied().unwrap_or(false),
            [] => false,
        }
    }
}
