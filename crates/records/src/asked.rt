ghost use Rattle.std.specs.Prelude.{◌≡◌, ◌+◌, ◌≤◌, List, length};
ghost use Rattle.rows.specs.declared.row.Row.{Row};
ghost use Rattle.language.specs.Walking.{Obligation};
ghost use Rattle.records.specs.Owing.{owed_at, row_at, Owes};
ghost use Rattle.records.specs.Asking.{Asks, RowsFrom, Copied};

use crate::owed::{Owed, ROWS_EACH};
use crate::record::Record;
use language::Duty;
use rows::{MOST_FACTS, Row};

// What an obligation asks: its duty, its place, how many facts of its question lie at the front of the room that was lent, and its goal.
#[derive(Clone, Copy, Debug, PartialEq, Eq)]
pub struct Asked {
    pub duty: Duty,
    pub place: usize,
    pub facts: usize,
    pub goal: Row,
}

// The header of the obligation with this number, if one lies there.
#[tactic(auto, unfolding(crate::specs::Columns::zero_record))]
pub fn owed_at(records: &[Record], number: usize) -> Option<Owed>
    ensures { result ≡ owed_at records.now number }
{
    records.get(number)?.owed
}

#[tactic(auto, unfolding(crate::specs::Columns::zero_record))]
fn row_at(records: &[Record], at: usize) -> Option<Row>
    ensures { result ≡ row_at records.now at }
{
    records.get(at)?.row
}

// Copies the rows from a position on, as many as there is room for.
fn copy_rows(records: &[Record], base: usize, into: &mut [Row]) -> Option<()>
    requires { base + length into.old ≤ length records.now }
    ensures { (rows : List Row) → length rows ≡ length into.old → RowsFrom records.now base rows → Copied result into.new rows }
{
    for j in 0..into.len() {
        into[j] = row_at(records, base + j)?;
    }
    Some(())
}

// What the obligation with this number asks. Its facts come to the front of the room that is lent; where there is no such obligation, there is no answer.
pub fn obligation(records: &[Record], number: usize, room: &mut [Row; MOST_FACTS]) -> Option<Asked>
    ensures { (o : Obligation) → Owes records.now number o → Asks result room.old room.new o }
{
    if number >= records.len() / ROWS_EACH {
        return None;
    }
    let owed = owed_at(records, number)?;
    if owed.facts > MOST_FACTS {
        return None;
    }
    let base = ROWS_EACH * number;
    copy_rows(records, base, &mut room[..owed.facts])?;
    let goal = row_at(records, base + MOST_FACTS)?;
    Some(Asked {
        duty: owed.duty,
        place: owed.place,
        facts: owed.facts,
        goal,
    })
}
