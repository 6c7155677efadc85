ghost use Rattle.std.specs.Prelude.{◌*◌, ◌≤◌, length};
ghost use Rattle.records.specs.Tabling.{Within};

use crate::counts::Counts;
use crate::record::Record;

mod methods;
mod owing;

// The tables of a sheet, laid into records: each table has so many entries, four to a record, in the order in which they were pushed. Beside them stand the obligations of the sheet. The records are lent by the caller.
#[derive(Drop)]
pub struct Laid<'r> {
    records: &'r mut [Record],
    counts: Counts,
    owed: usize,
    ghost within: { Within counts (4 * length records.now) },
    ghost owed_within: { 25 * owed ≤ length records.now },
}
