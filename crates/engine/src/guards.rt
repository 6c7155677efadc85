ghost use Rattle.std.specs.Prelude.{◌≡◌, ◌<◌, ◌≤◌, List, length};
ghost use Rattle.language.specs.Walking.{Obligation};
ghost use Rattle.language.specs.Drafts.{first_open, marked};
ghost use Rattle.records.specs.Owing.{Owes, OwesAll};
ghost use Rattle.engine.specs.Guarding.{open_at};

use language::{MOST_OBLIGATIONS, Refusal, is_guard};
use records::{Record, owed_at};

// The refusal for the obligation with this number, if it is a guard and its mark is not set.
fn open_at(records: &[Record], number: usize, marks: &[bool; MOST_OBLIGATIONS]) -> Option<Refusal>
    requires { number < 128 }
    ensures { (o : Obligation) → Owes records.now number o → result ≡ open_at number o (marked marks.now number) }
{
    let owed = owed_at(records, number)?;
    if !is_guard(owed.duty) || marks[number] {
        return None;
    }
    Some(Refusal::Closed {
        named: number as u32,
        place: owed.place,
    })
}

// The refusal for the first guard whose mark is not set, among so many obligations.
pub(crate) fn first_open(
    records: &[Record],
    owed: usize,
    marks: &[bool; MOST_OBLIGATIONS],
) -> Option<Refusal>
    requires { owed ≤ 128 }
    ensures { (os : List Obligation) → length os ≡ owed → OwesAll records.now os → result ≡ first_open 0 os (marked marks.now) }
{
    for number in 0..owed {
        if let Some(refusal) = open_at(records, number, marks) {
            return Some(refusal);
        }
    }
    None
}
