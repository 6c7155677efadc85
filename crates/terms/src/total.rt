ghost use Rattle.std.specs.Prelude.{◌≡◌, true};
ghost use Rattle.terms.specs.Narrow.{modest};

use crate::wide::Wide;

mod methods;

// A total takes no more items.
pub const MOST_ITEMS: u32 = 16_384;

// What the items of a side come to so far, added up exactly.
#[derive(Clone, Copy)]
pub struct Total {
    count: u32,
    sum: Wide,
    ghost kept: { modest count sum ≡ true },
}
