ghost use Rattle.std.specs.Prelude.{◌≡◌, true, pos, ◌+ℤ◌, ◌-ℤ◌, ◌*ℤ◌, if◌then◌else◌, Some, None};
ghost use Rattle.ints.specs.Tests.{within};
ghost use Rattle.terms.specs.Narrow.{room};

use ints::within;

pub(crate) fn sum(x: i32, y: i32) -> i64
    ensures { result ≡ x +ℤ y }
{
    i64::from(x) + i64::from(y)
}

pub(crate) fn difference(x: i32, y: i32) -> i64
    ensures { result ≡ x -ℤ y }
{
    i64::from(x) - i64::from(y)
}

pub(crate) fn product(x: i32, y: i32) -> i64
    ensures { result ≡ x *ℤ y }
{
    i64::from(x) * i64::from(y)
}

// x times y, and z: the sum fits where z leaves room for the product.
pub(crate) fn add_product(z: i64, x: i32, y: i32) -> i64
    requires { within (pos room) z ≡ true }
    ensures { result ≡ x *ℤ y +ℤ z }
{
    product(x, y) + z
}

// The same number, where it lies at most so far from 0.
pub(crate) fn narrow(limit: i32, z: i64) -> Option<i32>
    ensures { result ≡ (if within limit z then Some z else None) }
{
    if within(limit, z) {
        i32::try_from(z).ok()
    } else {
        None
    }
}
