#![tactic(auto)]

ghost use Rattle.std.specs.Prelude.{◌≡◌, pos, ◌*ℤ◌};

pub mod arrays;
pub mod divisors;
pub mod limits;

pub use arrays::try_each;
pub use divisors::divisor;
pub use limits::{all_within, within};

// A multiplier times a signed number: the product always fits.
pub fn times(m: u32, z: i32) -> i64
    ensures { result ≡ pos m *ℤ z }
{
    i64::from(m) * i64::from(z)
}
