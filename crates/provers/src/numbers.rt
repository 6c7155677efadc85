ghost use Rattle.std.specs.Prelude.{◌≡◌, ◌+◌, ◌*◌, ◌/◌, ◌<◌, ◌≤◌, nat_le};
ghost use Rattle.std.specs.Result.{result_ok};
ghost use Rattle.ints.specs.Divisors.{divisor_of};
ghost use Rattle.rows.specs.Limits.{small};
ghost use Rattle.provers.specs.Derivations.{blend, quotient, kept, modest};

use crate::worklist::PastLimit;
use ints::{divisor, times};
use rows::{MOST_TIMES, ROW_LIMIT};

// How two rows are added: a times the one plus b times the other. A sum always fits.
#[derive(Clone, Copy)]
pub(crate) struct Blend {
    pub a: u32,
    pub b: u32,
    ghost sizes: { (a ≤ 2147483648) × (b < 2147483648) },
}

impl Blend {
    pub(crate) fn coef(self, x: i32, y: i32) -> i64
        ensures { result ≡ blend self.a self.b x y }
    {
        times(self.a, x) + times(self.b, y)
    }

    // The same of two multipliers. One function over both types would be no plainer: what bounds the sum would be asked of each call.
    pub(crate) fn count(self, x: u32, y: u32) -> u64
        ensures { result ≡ self.a * x + self.b * y }
    {
        u64::from(self.a) * u64::from(x) + u64::from(self.b) * u64::from(y)
    }
}

// What a row is divided by.
#[derive(Clone, Copy)]
pub(crate) struct Divisor {
    g: u64,
    ghost above: { 0 < g },
}

impl Divisor {
    // The greatest number that divides them all, and 1 where they are all 0.
    pub(crate) fn of(times: &[u64]) -> Divisor
        ensures { result.g ≡ divisor_of times.now }
    {
        Divisor { g: divisor(times) }
    }

    // z divided, where that keeps a row's limits.
    pub(crate) fn coef(self, z: i64) -> Result<i32, PastLimit>
        ensures { result_ok result ≡ kept small (quotient self.g z) }
    {
        match i32::try_from(z.unsigned_abs() / self.g) {
            Ok(size) if size <= ROW_LIMIT => Ok(if z < 0 { -size } else { size }),
            _ => Err(PastLimit),
        }
    }

    // A multiplier divided, where that keeps the limit. One function for both would take the type and the limit, and say of each what it keeps.
    pub(crate) fn count(self, n: u64) -> Result<u32, PastLimit>
        ensures { result_ok result ≡ kept modest (n / self.g) }
    {
        match u32::try_from(n / self.g) {
            Ok(count) if count <= MOST_TIMES => Ok(count),
            _ => Err(PastLimit),
        }
    }
}
