ghost use Rattle.std.specs.Prelude.{◌≡◌};
ghost use Rattle.std.specs.List.{slice_get};
ghost use Rattle.records.specs.Columns.{tables_in, params_in};
ghost use Rattle.running.specs.Standing.{all_entries};

use records::{Condition, Entry, Item, Param, Record};

// The parameter at a position, past all slots none.
pub(crate) fn param_at(records: &[Record], at: usize) -> Option<Param>
    ensures { result ≡ slice_get (params_in records.now) at }
{
    let record = records.get(at / 4)?;
    Some(record.params[at % 4])
}

// The condition at a position, past all slots none.
pub(crate) fn condition_at(records: &[Record], at: usize) -> Option<Condition>
    ensures { result ≡ slice_get (tables_in records.now).conditions at }
{
    let record = records.get(at / 4)?;
    Some(record.conditions[at % 4])
}

// The item at a position, past all slots none.
pub(crate) fn item_at(records: &[Record], at: usize) -> Option<Item>
    ensures { result ≡ slice_get (tables_in records.now).items at }
{
    let record = records.get(at / 4)?;
    Some(record.items[at % 4])
}

// The entry of the rule with a number, past all slots none.
pub(crate) fn entry_at(records: &[Record], at: usize) -> Option<Entry>
    ensures { result ≡ slice_get (all_entries records.now) at }
{
    let record = records.get(at / 4)?;
    Some(record.entries[at % 4])
}
