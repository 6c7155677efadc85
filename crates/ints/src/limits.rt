ghost use Rattle.std.specs.Prelude.{◌≡◌};
ghost use Rattle.ints.specs.Tests.{within, all_within};

// Whether x lies at most so far from 0. Inlined, as the next is: of each caller the limit is known, and of most how many numbers there are.
#[inline(always)]
pub fn within(limit: i32, x: i64) -> bool
    ensures { result ≡ within limit x }
{
    -i64::from(limit) <= x && x <= i64::from(limit)
}

// Whether each of them does.
#[inline(always)]
pub fn all_within(limit: i32, xs: &[i32]) -> bool
    ensures { result ≡ all_within limit xs.now }
{
    xs.iter().all(|x| within(limit, i64::from(*x)))
}
