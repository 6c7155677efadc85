ghost use Rattle.std.specs.Prelude.{◌≡◌};
ghost use Rattle.rows.specs.Limits.{fits};
ghost use Rattle.rows.specs.Meaning.{coef};
ghost use Rattle.rows.specs.Rows.{row_of};

use super::{Kind, QUANTITIES, ROW_LIMIT, Row};
use ints::{all_within, within};

// Terms have such a test at their own limit; one function for both would only hand the limit on to these two calls.
#[tactic(auto, using(crate::proofs::Limiting::within_small))]
fn within_limits(coefs: &[i32], bound: i32) -> bool
    ensures { result ≡ fits coefs.now bound }
{
    within(ROW_LIMIT, i64::from(bound)) && all_within(ROW_LIMIT, coefs)
}

impl Row {
    // The row of these numbers, or none where one lies past the limits.
    pub fn new(coefs: [i32; QUANTITIES], bound: i32, kind: Kind) -> Option<Row>
        ensures { result ≡ row_of coefs bound kind }
    {
        if within_limits(&coefs, bound) {
            Some(Row { coefs, bound, kind })
        } else {
            None
        }
    }

    // The coefficient of the quantity j: 0 past the last quantity.
    pub fn coef(&self, j: usize) -> i32
        ensures { result ≡ coef self.now j }
    {
        self.coefs.get(j).copied().unwrap_or(0)
    }

    pub fn coefs(&self) -> [i32; QUANTITIES]
        ensures { result ≡ self.now.coefs }
    {
        self.coefs
    }

    pub fn bound(&self) -> i32
        ensures { result ≡ self.now.bound }
    {
        self.bound
    }

    pub fn kind(&self) -> Kind
        ensures { result ≡ self.now.kind }
    {
        self.kind
    }
}
