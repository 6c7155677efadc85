ghost use Rattle.std.specs.Prelude.{◌≡◌};
ghost use Rattle.language.specs.Terms.{zero_term, limited};
ghost use Rattle.terms.specs.Totals.{sum_of, takes, seen, taken, InTurn};

use super::{MOST_ITEMS, Total};
use crate::wide::Wide;
use crate::working::fits;
use ints::within;
use language::{TERM_LIMIT, Term};
use rows::QUANTITIES;

fn takes(count: u32, factor: i32, t: &Term) -> bool
    ensures { result ≡ takes count factor t.now }
{
    count < MOST_ITEMS && within(TERM_LIMIT, i64::from(factor)) && fits(t)
}

impl Total {
    // The total of no items. The items of a side that are added to it in turn come to the side.
    pub fn zero() -> Total
        ensures count { result.count ≡ 0 }
        ensures sum { sum_of result ≡ zero_term }
        ensures turn { InTurn }
    {
        Total {
            count: 0,
            sum: Wide {
                constant: 0,
                coefs: [0; QUANTITIES],
            },
        }
    }

    // With one item more, the factor times the term: none where the factor or the term is past the limit of terms, or the total is full.
    pub fn add(self, factor: i32, t: &Term) -> Option<Total>
        ensures { seen result ≡ taken self factor t.now }
    {
        if !takes(self.count, factor, t) {
            return None;
        }
        Some(Total {
            count: self.count + 1,
            sum: self.sum.plus_scaled(factor, t),
        })
    }

    // The term of the total, where it keeps the limit.
    pub fn finish(self) -> Option<Term>
        ensures { result ≡ limited (sum_of self) }
    {
        self.sum.limited()
    }
}
