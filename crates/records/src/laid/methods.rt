ghost use Rattle.std.specs.Prelude.{◌≡◌, List, length, if◌then◌else◌, is_ok, nat_lt, IfOk};
ghost use Rattle.std.specs.List.{slice_get};
ghost use Rattle.records.specs.Columns.{pushed, replaced, fresh};
ghost use Rattle.records.specs.Laying.{columns_of, records_of, owed_of};
ghost use Rattle.records.specs.Owing.{OwesAll};
ghost use Rattle.language.specs.Walking.{Obligation};

use super::Laid;
use crate::counts::Counts;
use crate::record::Record;
use crate::tabled::Tabled;
use pile::Full;

impl<'r> Laid<'r> {
    // Tables with nothing in them, over all the records.
    pub fn over(records: &'r mut [Record]) -> Laid<'r>
        ensures columns { columns_of result ≡ fresh (length records.old) records.entry.ghost_name }
        ensures records { records_of result ≡ records.old }
        ensures owed { owed_of result ≡ 0 }
    {
        let counts = Counts::default();
        Laid {
            records,
            counts,
            owed: 0,
        }
    }

    // How many entries a table has.
    pub fn count<E: Tabled>(&self) -> usize
        ensures { result ≡ length (E.table (columns_of self.now)).entries }
    {
        E::count(&self.counts)
    }

    // The entry of a table at a position, or none past the last.
    pub fn get<E: Tabled>(&self, at: usize) -> Option<E>
        ensures { result ≡ slice_get (E.table (columns_of self.now)).entries at }
    {
        if at < E::count(&self.counts) {
            let records = &*self.records;
            Some(E::at(&records[at / 4], at % 4))
        } else {
            None
        }
    }

    // Puts an entry after the others of its table, and gives its position. Where there is no room, that is the answer and nothing changes.
    pub fn push<E: Tabled>(&mut self, entry: E) -> Result<usize, Full>
        ensures value { is_ok result ≡ nat_lt (length (E.table (columns_of self.old)).entries) (E.table (columns_of self.old)).room }
        ensures position { IfOk result (λ at. at ≡ length (E.table (columns_of self.old)).entries) }
        ensures held { columns_of self.new ≡ (if is_ok result then E.with_table (columns_of self.old) (pushed (E.table (columns_of self.old)) entry) else columns_of self.old) }
        ensures owed { owed_of self.new ≡ owed_of self.old }
    {
        let at = E::count(&self.counts);
        if at / 4 >= self.records.len() {
            return Err(Full);
        }
        let records = &mut *self.records;
        entry.put(&mut records[at / 4], at % 4);
        E::set_count(&mut self.counts, at + 1);
        Ok(at)
    }

    // Puts an entry in place of the one at a position of its table. Past the last nothing changes.
    pub fn set<E: Tabled>(&mut self, at: usize, entry: E)
        ensures held { columns_of self.new ≡ E.with_table (columns_of self.old) (replaced (E.table (columns_of self.old)) at entry) }
        ensures owed { owed_of self.new ≡ owed_of self.old }
        ensures owes { (os : List Obligation) → OwesAll (records_of self.old) os → OwesAll (records_of self.new) os }
        ensures length { length (records_of self.new) ≡ length (records_of self.old) }
    {
        if at >= E::count(&self.counts) {
            return;
        }
        let lent = &mut *self.records;
        entry.put(&mut lent[at / 4], at % 4);
    }
}
