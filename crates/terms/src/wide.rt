ghost use Rattle.std.specs.Prelude.{◌≡◌, true, pos};
ghost use Rattle.ints.specs.Tests.{all_within, within};
ghost use Rattle.language.specs.Terms.{plus, minus, scaled, limited};
ghost use Rattle.terms.specs.Narrow.{wide_term, narrowed, room};

use crate::arrays::{add_products, differences, narrow_all, products, sums};
use crate::numbers::{add_product, difference, narrow, product, sum};
use language::{TERM_LIMIT, Term};
use rows::QUANTITIES;

// A term whose numbers may still lie past the limit.
#[derive(Clone, Copy)]
pub(crate) struct Wide {
    pub(crate) constant: i64,
    pub(crate) coefs: [i64; QUANTITIES],
}

impl Wide {
    pub(crate) fn sum(t: &Term, u: &Term) -> Wide
        ensures { wide_term result ≡ plus t.now u.now }
    {
        Wide {
            constant: sum(t.constant, u.constant),
            coefs: sums(&t.coefs, &u.coefs),
        }
    }

    pub(crate) fn difference(t: &Term, u: &Term) -> Wide
        ensures { wide_term result ≡ minus t.now u.now }
    {
        Wide {
            constant: difference(t.constant, u.constant),
            coefs: differences(&t.coefs, &u.coefs),
        }
    }

    pub(crate) fn scaled(k: i32, t: &Term) -> Wide
        ensures { wide_term result ≡ scaled k t.now }
    {
        Wide {
            constant: product(k, t.constant),
            coefs: products(k, &t.coefs),
        }
    }

    // With k times t more.
    pub(crate) fn plus_scaled(&self, k: i32, t: &Term) -> Wide
        requires constant { within (pos room) self.now.constant ≡ true }
        requires coefs { all_within (pos room) self.now.coefs ≡ true }
        ensures { wide_term result ≡ plus (scaled k t.now) (wide_term self.now) }
    {
        Wide {
            constant: add_product(self.constant, k, t.constant),
            coefs: add_products(&self.coefs, k, &t.coefs),
        }
    }

    // The term of the same numbers, where each lies at most so far from 0.
    pub(crate) fn narrowed(&self, limit: i32) -> Option<Term>
        ensures { result ≡ narrowed limit self.now }
    {
        let constant = narrow(limit, self.constant)?;
        let coefs = narrow_all(limit, &self.coefs)?;
        Some(Term { constant, coefs })
    }

    // The term itself, where its numbers keep the limit.
    #[tactic(auto, using(crate::proofs::Holding::within_near))]
    pub(crate) fn limited(&self) -> Option<Term>
        ensures { result ≡ limited (wide_term self.now) }
    {
        self.narrowed(TERM_LIMIT)
    }
}
