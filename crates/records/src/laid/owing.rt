ghost use Rattle.std.specs.Prelude.{◌≡◌, ◌+◌, ◌*◌, ◌<◌, ◌≤◌, length, is_ok};
ghost use Rattle.records.specs.Added.{RowPut, RowsPut, HeaderPut, PutIf};
ghost use Rattle.records.specs.Laying.{records_of, owed_of};
ghost use Rattle.records.specs.Owing.{takes_one};

use super::Laid;
use crate::owed::{Owed, ROWS_EACH};
use language::Duty;
use pile::Full;
use rows::{MOST_FACTS, Row};

impl<'r> Laid<'r> {
    // How many obligations there are.
    pub fn owed(&self) -> usize
        ensures { result ≡ owed_of self.now }
    {
        self.owed
    }

    fn put_row(&mut self, at: usize, row: Row)
        requires { at < length self.old.records.now }
        ensures { RowPut self.old self.new at row }
    {
        self.records[at].row = Some(row);
    }

    fn put_rows(&mut self, base: usize, rows: &[Row])
        requires { base + length rows.now ≤ length self.old.records.now }
        ensures { RowsPut self.old self.new base rows.now (length rows.now) }
    {
        // By positions: of records that an `iter_mut` under a `zip` wrote, a proof knows only how many they are.
        for (j, row) in rows.iter().enumerate() {
            self.put_row(base + j, *row);
        }
    }

    fn put_header(&mut self, at: usize, owed: Owed)
        requires { at < length self.old.records.now }
        ensures { HeaderPut self.old self.new at owed }
    {
        self.records[at].owed = Some(owed);
    }

    // What is owed at a place joins the obligations, with the facts of its question and its goal. Where there are too many facts, or no room, that is the answer and nothing changes.
    pub fn owe(&mut self, duty: Duty, place: usize, facts: &[Row], goal: Row) -> Result<(), Full>
        ensures value { is_ok result ≡ takes_one (length (records_of self.old)) (owed_of self.old) (length facts.now) }
        ensures put { PutIf (is_ok result) self.old self.new duty place facts.now goal }
    {
        let count = self.owed;
        if facts.len() > MOST_FACTS || count >= self.records.len() / ROWS_EACH {
            return Err(Full);
        }
        let base = ROWS_EACH * count;
        self.put_rows(base, facts);
        self.put_row(base + MOST_FACTS, goal);
        self.put_header(
            count,
            Owed {
                duty,
                place,
                facts: facts.len(),
            },
        );
        self.owed = count + 1;
        Ok(())
    }
}
