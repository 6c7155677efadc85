ghost use Rattle.std.specs.Prelude.{◌≤◌, unwrap_or};

use crate::side::Items;
use crate::written::Written;
use letters::Token;

// A condition as it is written: a side, the token that compares, a side.
#[derive(Clone, Copy, Drop)]
pub struct Condition<'t> {
    pub left: Items<'t>,
    pub comparison: Token,
    pub right: Items<'t>,
}

// The conditions that are still to come: where the next begins, and how many more there may be after it.
#[derive(Clone, Copy, Drop)]
pub struct Conditions<'t> {
    pub sheet: Written<'t>,
    pub(crate) next: Option<usize>,
    pub(crate) rest: usize,
    ghost within: { (unwrap_or next 0 ≤ 16384) × (rest ≤ 16384) },
}
