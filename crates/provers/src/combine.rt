ghost use Rattle.std.specs.Prelude.{◌≡◌, ◌<◌, pos, ◌<ℤ◌};
ghost use Rattle.std.specs.Result.{result_ok};
ghost use Rattle.provers.specs.Derivations.{coef_at, quotients, within, kept, combine};

use crate::derived::{Derived, MULTIPLIERS};
use crate::numbers::{Blend, Divisor};
use crate::worklist::PastLimit;
use ints::try_each;
use rows::QUANTITIES;
use std::array;

// Everything divided, where that keeps the limits.
fn reduce(
    by: Divisor,
    coefs: &[i64; QUANTITIES],
    bound: i64,
    times: &[u64; MULTIPLIERS],
) -> Result<Derived, PastLimit>
    ensures { result_ok result ≡ kept within (quotients by.g coefs.now bound times.now) }
{
    let bound = by.coef(bound)?;
    let coefs = try_each(coefs, |z| by.coef(z))?;
    let times = try_each(times, |n| by.count(n))?;
    Ok(Derived {
        coefs,
        bound,
        times,
    })
}

// A row that is positive at the quantity q.
#[derive(Clone, Copy)]
pub(crate) struct Positive<'a> {
    pub q: usize,
    pub p: &'a Derived,
    ghost quantity: { q < 16 },
    ghost positive: { pos 0 <ℤ coef_at q p.now },
}

impl Positive<'_> {
    // The row without q that follows from this one and m, which is negative there.
    pub(crate) fn combined(self, m: &Derived) -> Result<Derived, PastLimit>
        ensures { result_ok result ≡ combine self.entry.q self.entry.p.now m.now }
    {
        let p = self.p;
        let blend = Blend {
            a: m.coefs[self.q].unsigned_abs(),
            b: p.coefs[self.q].unsigned_abs(),
        };
        let coefs = array::from_fn(|j| blend.coef(p.coefs[j], m.coefs[j]));
        let bound = blend.coef(p.bound, m.bound);
        let times = array::from_fn(|i| blend.count(p.times[i], m.times[i]));
        reduce(Divisor::of(&times), &coefs, bound, &times)
    }
}
