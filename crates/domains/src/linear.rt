ghost use Rattle.std.specs.Prelude.{◌≡◌, ◌+◌, ◌≤◌, true, length, pos, negsuc};
ghost use Rattle.ints.specs.Tests.{is_zero};
ghost use Rattle.domains.specs.declared.linear.Column.TheVariants.{Coef};
ghost use Rattle.domains.specs.Linear.{entry, negated, total, numbers, kind_ok, kinds, sums, fitting, linear};
ghost use Rattle.domains.specs.Farkas.{linear-sound};
ghost use Rattle.std.proofs.Common.{rules};

use crate::domain::Domain;
use crate::fault::{Fault, Reason};
use ints::times;
use rows::{Kind, MOST_TIMES, QUANTITIES, Question, Row};

// A column of a list of rows: the coefficients of one quantity, or the bounds.
#[derive(Clone, Copy, Debug, PartialEq, Eq)]
pub enum Column {
    Coef(usize),
    Bound,
}

// What a row has in a column.
fn entry_of(row: &Row, column: Column) -> i32
    ensures { result ≡ entry column row.now }
{
    match column {
        Column::Coef(j) => row.coef(j),
        Column::Bound => row.bound(),
    }
}

// What the negation of a row has there.
fn negated_entry(row: &Row, column: Column) -> i32
    ensures { result ≡ negated column row.now }
{
    match column {
        Column::Coef(j) => -row.coef(j),
        Column::Bound => -row.bound() - 1,
    }
}

// No multiplier but 0 goes with the kind unequal.
fn kind_fits(m: u32, kind: Kind) -> bool
    ensures { result ≡ kind_ok m kind }
{
    m == 0 || kind == Kind::AtMost
}

// A multiplier for each fact and one for the negated goal.
fn fits_question(question: Question<'_>, certificate: &[u32]) -> bool
    ensures { result ≡ fitting question.entry.facts.now question.entry.goal.now certificate.now }
{
    question.well_shaped() && certificate.len() == question.facts.len() + 1
}

fn numbers_fit(certificate: &[u32]) -> bool
    ensures { result ≡ numbers certificate.now }
{
    certificate.iter().all(|m| *m <= MOST_TIMES)
}

// A question and its multipliers: one for each fact, a last one for the negated goal, none above the most.
#[derive(Clone, Copy)]
struct Weighted<'a> {
    question: Question<'a>,
    certificate: &'a [u32],
    ghost few: { length question.facts.now ≤ 24 },
    ghost one_more: { length certificate.now ≡ length question.facts.now + 1 },
    ghost fit: { numbers certificate.now ≡ true },
}

impl Weighted<'_> {
    // No multiplier but 0 at an unequal fact.
    fn kinds_fit(self) -> bool
        ensures { result ≡ kinds self.entry.certificate.now self.entry.question.facts.now }
    {
        self.question
            .facts
            .iter()
            .zip(self.certificate)
            .all(|(fact, m)| kind_fits(*m, fact.kind()))
    }

    // The weighted sum of a column.
    fn total(self, column: Column) -> i64
        ensures { result ≡ total self.entry.question.facts.now self.entry.question.goal.now self.entry.certificate.now column }
    {
        let facts = self.question.facts;
        // As many as there are facts, so that the loop tests for one end only; with two it takes twice the time.
        let multipliers = &self.certificate[..facts.len()];
        // `sum` would have every run of its turns fit; std has the lemmas for that of numbers without a sign only.
        let mut sum = 0i64;
        for (fact, m) in facts.iter().zip(multipliers) {
            sum += times(*m, entry_of(fact, column));
        }
        let last = self.certificate[facts.len()];
        sum + times(last, negated_entry(self.question.goal, column))
    }

    fn cancels(self, j: usize) -> bool
        ensures { result ≡ is_zero (total self.entry.question.facts.now self.entry.question.goal.now self.entry.certificate.now (Coef j)) }
    {
        self.total(Column::Coef(j)) == 0
    }

    // Every quantity cancels, and what is left reads 0 < 0.
    fn sums_refute(self) -> bool
        ensures { result ≡ sums self.entry.question.facts.now self.entry.question.goal.now self.entry.certificate.now }
    {
        (0..QUANTITIES).all(|j| self.cancels(j)) && self.total(Column::Bound) < 0
    }
}

// The domain of Farkas' lemma: a weighted sum of the facts and the negated goal that cannot hold.
#[derive(Clone, Copy, Debug, PartialEq, Eq)]
pub struct Linear;

impl Domain for Linear {
    ghost low = { λ _. negsuc 2147483647 };

    ghost high = { λ _. pos 2147483647 };

    ghost outcome = { λ _. linear };

    ghost range = { Prim.search rules };

    ghost sound = { λ s. linear-sound _ _ };

    fn low(&self) -> i32 {
        i32::MIN
    }

    fn high(&self) -> i32 {
        i32::MAX
    }

    fn verify(&self, question: Question<'_>, certificate: &[u32]) -> Result<(), Fault> {
        if !fits_question(question, certificate) {
            return Err(Fault::new(Reason::Shape));
        }
        if !numbers_fit(certificate) {
            return Err(Fault::new(Reason::Number));
        }
        let weighted = Weighted {
            question,
            certificate,
        };
        if !weighted.kinds_fit() {
            return Err(Fault::new(Reason::Kind));
        }
        if !weighted.sums_refute() {
            return Err(Fault::new(Reason::Sum));
        }
        Ok(())
    }
}
