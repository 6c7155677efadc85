ghost use Rattle.std.specs.Prelude.{◌≡◌};
ghost use Rattle.notation.specs.declared.misread.Misread.TheVariants.{Memory};

use std::alloc::{AllocError, AllocFailed};
use thiserror::Error;

// Why a text gives no number or no row.
#[derive(Clone, Copy, Debug, PartialEq, Eq, Error)]
pub enum Misread {
    #[error("a number is expected: decimal, from 0 to 4294967295, no leading zero")]
    Number,
    #[error("a row is expected, as in '-1*q0 2*q3 <= 5', '1*q0 != 3' or '0 <= -1'")]
    Short,
    #[error("<= or != is expected before the bound")]
    Relation,
    #[error("a bound within 4000000 of 0 is expected at the end")]
    Bound,
    #[error("terms are expected, as in '-1*q0 2*q3', or 0 where there are none")]
    Term,
    #[error("a quantity from q0 to q15 is expected")]
    Quantity,
    #[error("coefficients and a bound within 4000000 of 0 are expected")]
    Limits,
    #[error("non-zero coefficients in the order of their quantities are expected, each number in its shortest form")]
    Form,
    #[error("there is not enough memory")]
    Memory,
}

// Both by hand, not by thiserror: what they give is promised.
impl From<AllocError> for Misread {
    ghost from_gives = { λ _ m. m ≡ Memory };

    fn from(_value: AllocError) -> Misread {
        Misread::Memory
    }
}

impl<T: Drop> From<AllocFailed<T>> for Misread {
    ghost from_gives = { λ _ m. m ≡ Memory };

    fn from(_value: AllocFailed<T>) -> Misread {
        Misread::Memory
    }
}
