ghost use Rattle.std.specs.Prelude.{◌≡◌};
ghost use Rattle.language.specs.declared.operator.Operator.TheVariants.{Product};
ghost use Rattle.language.specs.Terms.{constant, quantity, fits_term, is_constant, worked};

use crate::arrays::all_zero;
use crate::wide::Wide;
use ints::{all_within, within};
use language::{Operator, TERM_LIMIT, Term};
use rows::QUANTITIES;

pub fn constant(value: i32) -> Term
    ensures { result ≡ constant value }
{
    Term {
        constant: value,
        coefs: [0; QUANTITIES],
    }
}

// The quantity n itself; past the last quantity, 0.
pub fn quantity(n: usize) -> Term
    ensures { result ≡ quantity n }
{
    let mut coefs = [0; QUANTITIES];
    if n < QUANTITIES {
        coefs[n] = 1;
    }
    Term { constant: 0, coefs }
}

// Whether the constant and each coefficient keep the limit. Rows have such a test at their own limit; one function for both would only hand the limit on to these two calls.
#[tactic(auto, using(crate::proofs::Holding::within_near))]
pub fn fits(t: &Term) -> bool
    ensures { result ≡ fits_term t.now }
{
    within(TERM_LIMIT, i64::from(t.constant)) && all_within(TERM_LIMIT, &t.coefs)
}

// Whether every coefficient is 0.
pub fn is_constant(t: &Term) -> bool
    ensures { result ≡ is_constant t.now }
{
    all_zero(&t.coefs)
}

fn multiplied(t: &Term, u: &Term) -> Option<Term>
    ensures { result ≡ worked Product t.now u.now }
{
    if is_constant(t) {
        Wide::scaled(t.constant, u).limited()
    } else if is_constant(u) {
        Wide::scaled(u.constant, t).limited()
    } else {
        None
    }
}

// A sum, difference or product: none past the limit, or with no constant side to a product.
pub fn worked(operator: Operator, t: &Term, u: &Term) -> Option<Term>
    ensures { result ≡ worked operator t.now u.now }
{
    match operator {
        Operator::Sum => Wide::sum(t, u).limited(),
        Operator::Difference => Wide::difference(t, u).limited(),
        Operator::Product => multiplied(t, u),
    }
}
