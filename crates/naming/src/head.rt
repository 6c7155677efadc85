ghost use Rattle.std.specs.Prelude.{◌≤◌, unwrap_or};

use crate::written::Written;

// A number's name, or a list's with that of its length, by their tokens' numbers.
#[derive(Clone, Copy, Debug, PartialEq, Eq)]
pub struct Param {
    pub name: usize,
    pub length: Option<usize>,
}

// The parameters of a head that are still to come: where the next begins, and how many more there may be after it.
#[derive(Clone, Copy, Drop)]
pub struct Params<'t> {
    pub sheet: Written<'t>,
    pub next: Option<usize>,
    pub rest: usize,
    ghost within: { (unwrap_or next 0 ≤ 16384) × (rest ≤ 16384) },
}
