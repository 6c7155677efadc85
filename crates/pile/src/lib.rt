// A pile of entries over a lent slice: it grows by a push and falls back to a mark.
#![tactic(auto)]

ghost use Rattle.std.specs.Prelude.{◌≤◌, length};

mod full;
mod methods;

pub use full::Full;

// The first `len` slots are the entries, in the order in which they were pushed; the others are room. Its memory is lent by the caller, so it is no Vec.
#[derive(Drop)]
pub struct Pile<'a, T> {
    slots: &'a mut [T],
    len: usize,
    ghost within: { len ≤ length slots.now },
}
