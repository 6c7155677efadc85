use crate::stretch::Stretch;
use language::Comparison;

// What an item of a side takes so many times: one, a name by its slot, or the result.
#[derive(Clone, Copy, Debug, PartialEq, Eq)]
pub enum Atom {
    One,
    Named(usize),
    TheResult,
}

#[derive(Clone, Copy, Debug, PartialEq, Eq)]
pub struct Item {
    pub factor: i32,
    pub atom: Atom,
}

// A condition: its sides are stretches of the table of items.
#[derive(Clone, Copy, Debug, PartialEq, Eq)]
pub struct Condition {
    pub place: usize,
    pub comparison: Comparison,
    pub left: Stretch,
    pub right: Stretch,
}
