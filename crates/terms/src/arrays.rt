ghost use Rattle.std.specs.Prelude.{◌≡◌, true, pos, ◌+ℤ◌, ◌-ℤ◌, ◌*ℤ◌, if◌then◌else◌, Some, None, slice_index_or};
ghost use Rattle.ints.specs.Tests.{is_zero, all_within, all_below};
ghost use Rattle.language.specs.Terms.{each};
ghost use Rattle.terms.specs.Narrow.{room};

use crate::numbers::{add_product, difference, narrow, product, sum};
use ints::try_each;
use rows::QUANTITIES;
use std::array;

// `array::from_fn` is the one function over a closure of these three; each has a contract in its own operation.
pub(crate) fn sums(xs: &[i32; QUANTITIES], ys: &[i32; QUANTITIES]) -> [i64; QUANTITIES]
    ensures { result ≡ each (λ j. slice_index_or xs.now j (pos 0) +ℤ slice_index_or ys.now j (pos 0)) }
{
    array::from_fn(|j| sum(xs[j], ys[j]))
}

pub(crate) fn differences(xs: &[i32; QUANTITIES], ys: &[i32; QUANTITIES]) -> [i64; QUANTITIES]
    ensures { result ≡ each (λ j. slice_index_or xs.now j (pos 0) -ℤ slice_index_or ys.now j (pos 0)) }
{
    array::from_fn(|j| difference(xs[j], ys[j]))
}

pub(crate) fn products(k: i32, xs: &[i32; QUANTITIES]) -> [i64; QUANTITIES]
    ensures { result ≡ each (λ j. k *ℤ slice_index_or xs.now j (pos 0)) }
{
    array::from_fn(|j| product(k, xs[j]))
}

pub(crate) fn add_products(
    zs: &[i64; QUANTITIES],
    k: i32,
    xs: &[i32; QUANTITIES],
) -> [i64; QUANTITIES]
    requires { all_within (pos room) zs.now ≡ true }
    ensures { result ≡ each (λ j. k *ℤ slice_index_or xs.now j (pos 0) +ℤ slice_index_or zs.now j (pos 0)) }
{
    // A closure would have what bounds a sum asked of each of its calls.
    let mut out = [0i64; QUANTITIES];
    for j in 0..QUANTITIES {
        out[j] = add_product(zs[j], k, xs[j]);
    }
    out
}

// The same numbers, where each lies at most so far from 0.
pub(crate) fn narrow_all(limit: i32, xs: &[i64; QUANTITIES]) -> Option<[i32; QUANTITIES]>
    ensures { result ≡ (if all_within limit xs.now then Some xs.now else None) }
{
    try_each(xs, |x| narrow(limit, x).ok_or(())).ok()
}

pub(crate) fn all_zero(xs: &[i32; QUANTITIES]) -> bool
    ensures { result ≡ all_below 16 (λ j. is_zero (slice_index_or xs.now j (pos 0))) }
{
    xs.iter().all(|x| *x == 0)
}
