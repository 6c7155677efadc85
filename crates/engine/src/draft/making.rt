ghost use Rattle.std.specs.Prelude.{◌≤◌, false, length, replicate};
ghost use Rattle.engine.specs.Sheeted.{Sheeted};
ghost use Rattle.engine.specs.Taking.{Tested, Fresh, Made};

use super::Draft;
use language::{MOST_OBLIGATIONS, Refusal};
use reading::{Sizes, read};
use records::Record;

// Whether the sheet of a text is taken in a range; else the refusal, and every record is zero.
pub fn test(text: &[u8], low: i32, high: i32, records: &mut [Record]) -> Result<(), Refusal>
    ensures { Tested result text.now low high records.old records.new }
{
    read(text, low, high, records)?;
    Ok(())
}

// A draft over records in a range, with nothing settled.
fn fresh<'r>(records: &'r mut [Record], low: i32, high: i32, sizes: Sizes) -> Draft<'r>
    requires few { sizes.owed ≤ 128 }
    requires sheeted { ∥ Sheeted low high records.old sizes (replicate 128 false) ∥₁ }
    ensures { Fresh result records.old low high sizes }
{
    let marks = [false; MOST_OBLIGATIONS];
    Draft {
        records,
        low,
        high,
        sizes,
        marks,
    }
}

// The draft of the sheet of a text in a range, with nothing settled. Of a text that is refused it is the draft of a sheet without rules and obligations, in the range 0 to 0.
pub fn make<'r>(text: &[u8], low: i32, high: i32, records: &'r mut [Record]) -> Draft<'r>
    ensures { Made result text.now low high (length records.old) }
{
    match read(text, low, high, records) {
        Ok(sizes) => fresh(records, low, high, sizes),
        Err(_) => fresh(records, 0, 0, Sizes { rules: 0, owed: 0 }),
    }
}
