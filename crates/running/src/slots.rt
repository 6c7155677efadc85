ghost use Rattle.std.specs.Prelude.{◌≡◌};
ghost use Rattle.std.specs.List.{slice_get};
ghost use Rattle.records.specs.Columns.{tables_in};
ghost use Rattle.running.specs.Standing.{all_entries};

use records::{Entry, Node, Record};

// The node at a position, past all slots none.
pub(crate) fn node_at(records: &[Record], at: usize) -> Option<Node>
    ensures { result ≡ slice_get (tables_in records.now).nodes at }
{
    let record = records.get(at / 4)?;
    Some(record.nodes[at % 4])
}

// The entry of the rule with a number, past all slots none.
pub(crate) fn entry_at(records: &[Record], at: usize) -> Option<Entry>
    ensures { result ≡ slice_get (all_entries records.now) at }
{
    let record = records.get(at / 4)?;
    Some(record.entries[at % 4])
}
