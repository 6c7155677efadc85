ghost use Rattle.std.specs.Prelude.{◌≡◌, pos, neg_ℤ, ◌-ℤ◌};
ghost use Rattle.rows.specs.Rows.{row_of};
ghost use Rattle.language.specs.Terms.{minus};
ghost use Rattle.language.specs.Comparing.{at_most, unequal, rows, otherwise};
ghost use Rattle.terms.specs.Listed.{list_of};
ghost use Rattle.terms.specs.Totals.{sum_of, side_rows};

use crate::arrays::differences;
use crate::numbers::difference;
use crate::rowlist::Rows;
use crate::total::Total;
use crate::wide::Wide;
use language::{Comparison, Term};
use rows::{Kind, ROW_LIMIT, Row};

// The row that says of a wide term that it is at most 0, or not 0; none where a number lies past a row's limits.
fn row(wide: &Wide, kind: Kind) -> Option<Row>
    ensures { result ≡ row_of wide.now.coefs (neg_ℤ wide.now.constant) kind }
{
    let term = wide.narrowed(ROW_LIMIT)?;
    Row::new(term.coefs, -term.constant, kind)
}

// The row that says so of t - u and so much more.
fn compared(t: &Term, u: &Term, more: i8, kind: Kind) -> Option<Row>
    ensures { result ≡ row_of (minus t.now u.now).coefs ((u.now.constant -ℤ t.now.constant) -ℤ more) kind }
{
    let wide = Wide {
        constant: difference(t.constant, u.constant) + i64::from(more),
        coefs: differences(&t.coefs, &u.coefs),
    };
    row(&wide, kind)
}

// t <= u
#[tactic(auto, unfolding(language::specs::Comparing::at_most))]
pub fn at_most(t: &Term, u: &Term) -> Option<Row>
    ensures { result ≡ at_most (pos 0) t.now u.now }
{
    compared(t, u, 0, Kind::AtMost)
}

// t < u
#[tactic(auto, unfolding(language::specs::Comparing::at_most))]
pub fn below(t: &Term, u: &Term) -> Option<Row>
    ensures { result ≡ at_most (pos 1) t.now u.now }
{
    compared(t, u, 1, Kind::AtMost)
}

// t != u
pub fn unequal(t: &Term, u: &Term) -> Option<Row>
    ensures { result ≡ unequal t.now u.now }
{
    compared(t, u, 0, Kind::Unequal)
}

// The rows that say what the comparison says of two terms.
pub fn rows(comparison: Comparison, t: &Term, u: &Term) -> Rows
    ensures { list_of result ≡ rows comparison t.now u.now }
{
    match comparison {
        Comparison::Less => Rows::One(below(t, u)),
        Comparison::LessOrEqual => Rows::One(at_most(t, u)),
        Comparison::Equal => Rows::Two(at_most(t, u), at_most(u, t)),
        Comparison::NotEqual => Rows::One(unequal(t, u)),
    }
}

// The rows of its negation.
pub fn otherwise(comparison: Comparison, t: &Term, u: &Term) -> Rows
    ensures { list_of result ≡ otherwise comparison t.now u.now }
{
    match comparison {
        Comparison::Less => rows(Comparison::LessOrEqual, u, t),
        Comparison::LessOrEqual => rows(Comparison::Less, u, t),
        Comparison::Equal => rows(Comparison::NotEqual, t, u),
        Comparison::NotEqual => rows(Comparison::Equal, t, u),
    }
}

// The rows of a condition whose sides come to these totals: none in their place where a side is past the limit of terms.
pub fn condition_rows(comparison: Comparison, left: Total, right: Total) -> Rows
    ensures { list_of result ≡ side_rows comparison (sum_of left) (sum_of right) }
{
    match (left.finish(), right.finish()) {
        (Some(t), Some(u)) => rows(comparison, &t, &u),
        _ => Rows::One(None),
    }
}
