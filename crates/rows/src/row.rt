ghost use Rattle.std.specs.Prelude.{◌≡◌, true};
ghost use Rattle.rows.specs.Limits.{fits};

mod methods;

// The quantities are q0 to q15.
pub const QUANTITIES: usize = 16;

// No coefficient or bound lies further from 0.
pub const ROW_LIMIT: i32 = 4_000_000;

// What a row says of its sum: that it is at most the bound, or that it is not the bound.
#[derive(Clone, Copy, Debug, PartialEq, Eq)]
pub enum Kind {
    AtMost,
    Unequal,
}

// A statement about the quantities: the sum of coefficient times quantity, set against the bound.
#[derive(Clone, Copy, Debug, PartialEq, Eq)]
pub struct Row {
    coefs: [i32; QUANTITIES],
    bound: i32,
    kind: Kind,
    ghost ok: { fits coefs bound ≡ true },
}
