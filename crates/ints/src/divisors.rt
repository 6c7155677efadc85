ghost use Rattle.std.specs.Prelude.{◌≡◌, ◌<◌};
ghost use Rattle.ints.specs.Divisors.{gcd_of, divisor_of};

// Euclid's algorithm.
fn gcd(a: u64, b: u64) -> u64
    ensures { result ≡ gcd_of a b }
{
    let mut x = a;
    let mut y = b;
    while y != 0 {
        let rest = x % y;
        x = y;
        y = rest;
    }
    x
}

// The greatest number that divides them all, and 1 where they are all 0.
pub fn divisor(xs: &[u64]) -> u64
    ensures value { result ≡ divisor_of xs.now }
    ensures above { 0 < result }
{
    xs.iter().fold(0, |g, x| gcd(g, *x)).max(1)
}
