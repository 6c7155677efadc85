ghost use Rattle.std.specs.Prelude.{◌≡◌, ℕ, ◌<◌, List, length, slice_set};
ghost use Rattle.std.specs.List.{slice_get};
ghost use Rattle.records.specs.declared.node.Node.TheVariants.{Blank};
ghost use Rattle.records.specs.declared.entry.Param.TheVariants.{Number};
ghost use Rattle.records.specs.declared.counts.Counts.{Counts};
ghost use Rattle.records.specs.declared.record.Record.{Record};
ghost use Rattle.records.specs.Columns.{Column, Columns, no_condition, no_item, no_entry};
ghost use Rattle.records.specs.Tabling.{TableLaws};
ghost use Rattle.records.specs.Kept.{node_laws, condition_laws, item_laws, param_laws, entry_laws};

use crate::condition::{Condition, Item};
use crate::counts::Counts;
use crate::entry::{Entry, Param};
use crate::node::Node;
use crate::record::Record;

// What lies in a table of its own, four to a record.
pub trait Tabled: Copy {
    // What the slots of a record hold.
    ghost slots: { Record → List Self };

    ghost with_slots: { Record → List Self → Record };

    // What a slot holds in which nothing lies.
    ghost none: { Self };

    ghost count: { Counts → ℕ };

    ghost with_count: { Counts → ℕ → Counts };

    // Its table among the columns.
    ghost table: { Columns → Column Self };

    ghost with_table: { Columns → Column Self → Columns };

    // What the slot with a number below four holds.
    fn at(from: &Record, slot: usize) -> Self
        requires { slot < 4 }
        ensures { slice_get (slots from.now) slot ≡ Some result };

    // Puts it into the slot with a number below four.
    fn put(self, into: &mut Record, slot: usize)
        requires { slot < 4 }
        ensures within { slot < length (slots into.old) }
        ensures held { into.new ≡ with_slots into.old (slice_set (slots into.old) slot self) };

    // How many entries its table has.
    fn count(counts: &Counts) -> usize
        ensures { result ≡ count counts.now };

    // Its table has so many entries from now on.
    fn set_count(counts: &mut Counts, entries: usize)
        ensures { counts.new ≡ with_count counts.old entries };

    ghost laws: { TableLaws slots with_slots none count with_count table with_table };
}

// The five tables. Each names fields of its own, so these lines stay five times; all that is done with them is written once, over the trait.
impl Tabled for Node {
    ghost slots = { λ r. r.nodes };

    ghost with_slots = { λ r xs. record r { nodes = xs } };

    ghost none = { Blank };

    ghost count = { λ k. k.nodes };

    ghost with_count = { λ k n. record k { nodes = n } };

    ghost table = { λ c. c.nodes };

    ghost with_table = { λ c t. record c { nodes = t } };

    ghost laws = { node_laws };

    fn at(from: &Record, slot: usize) -> Node {
        from.nodes[slot]
    }

    fn put(self, into: &mut Record, slot: usize) {
        into.nodes[slot] = self;
    }

    fn count(counts: &Counts) -> usize {
        counts.nodes
    }

    fn set_count(counts: &mut Counts, entries: usize) {
        counts.nodes = entries;
    }
}

impl Tabled for Condition {
    ghost slots = { λ r. r.conditions };

    ghost with_slots = { λ r xs. record r { conditions = xs } };

    ghost none = { no_condition };

    ghost count = { λ k. k.conditions };

    ghost with_count = { λ k n. record k { conditions = n } };

    ghost table = { λ c. c.conditions };

    ghost with_table = { λ c t. record c { conditions = t } };

    ghost laws = { condition_laws };

    fn at(from: &Record, slot: usize) -> Condition {
        from.conditions[slot]
    }

    fn put(self, into: &mut Record, slot: usize) {
        into.conditions[slot] = self;
    }

    fn count(counts: &Counts) -> usize {
        counts.conditions
    }

    fn set_count(counts: &mut Counts, entries: usize) {
        counts.conditions = entries;
    }
}

impl Tabled for Item {
    ghost slots = { λ r. r.items };

    ghost with_slots = { λ r xs. record r { items = xs } };

    ghost none = { no_item };

    ghost count = { λ k. k.items };

    ghost with_count = { λ k n. record k { items = n } };

    ghost table = { λ c. c.items };

    ghost with_table = { λ c t. record c { items = t } };

    ghost laws = { item_laws };

    fn at(from: &Record, slot: usize) -> Item {
        from.items[slot]
    }

    fn put(self, into: &mut Record, slot: usize) {
        into.items[slot] = self;
    }

    fn count(counts: &Counts) -> usize {
        counts.items
    }

    fn set_count(counts: &mut Counts, entries: usize) {
        counts.items = entries;
    }
}

impl Tabled for Param {
    ghost slots = { λ r. r.params };

    ghost with_slots = { λ r xs. record r { params = xs } };

    ghost none = { Number };

    ghost count = { λ k. k.params };

    ghost with_count = { λ k n. record k { params = n } };

    ghost table = { λ c. c.params };

    ghost with_table = { λ c t. record c { params = t } };

    ghost laws = { param_laws };

    fn at(from: &Record, slot: usize) -> Param {
        from.params[slot]
    }

    fn put(self, into: &mut Record, slot: usize) {
        into.params[slot] = self;
    }

    fn count(counts: &Counts) -> usize {
        counts.params
    }

    fn set_count(counts: &mut Counts, entries: usize) {
        counts.params = entries;
    }
}

impl Tabled for Entry {
    ghost slots = { λ r. r.entries };

    ghost with_slots = { λ r xs. record r { entries = xs } };

    ghost none = { no_entry };

    ghost count = { λ k. k.entries };

    ghost with_count = { λ k n. record k { entries = n } };

    ghost table = { λ c. c.entries };

    ghost with_table = { λ c t. record c { entries = t } };

    ghost laws = { entry_laws };

    fn at(from: &Record, slot: usize) -> Entry {
        from.entries[slot]
    }

    fn put(self, into: &mut Record, slot: usize) {
        into.entries[slot] = self;
    }

    fn count(counts: &Counts) -> usize {
        counts.entries
    }

    fn set_count(counts: &mut Counts, entries: usize) {
        counts.entries = entries;
    }
}
