ghost use Rattle.std.specs.Prelude.{◌≤◌, unwrap_or};

use crate::written::Written;
use grammar::ItemRead;

// An item as it is written, with a minus before it or not: the minus is no part of the item that the grammar reads.
#[derive(Clone, Copy, Debug, PartialEq, Eq)]
pub struct Signed {
    pub minus: bool,
    pub item: ItemRead,
}

// The items of a side that are still to come: whether the next is after a minus, where it begins, where the last one ended, and how many more there may be. The sign and the position are read apart by the clauses, so they are no pair.
#[derive(Clone, Copy, Drop)]
pub struct Items<'t> {
    pub sheet: Written<'t>,
    pub(crate) minus: bool,
    pub(crate) next: Option<usize>,
    pub(crate) end: usize,
    pub(crate) rest: usize,
    ghost near: { (unwrap_or next 0 ≤ 16390) × (end ≤ 16393) },
}
