ghost use Rattle.std.specs.Prelude.{◌≡◌, ℕ, ◌<◌, ◌≤◌, true, false, length, pos, slice_index_or};
ghost use Rattle.rows.specs.Meaning.{value};
ghost use Rattle.rows.specs.Testing.{meets, meets_all};
ghost use Rattle.domains.specs.Modes.{occurs_in, occurs, width, at, breaks, broken, modes, Decides};
ghost use Rattle.domains.specs.Deciding.{modes-sound};
ghost use Rattle.std.proofs.Common.{rules};

use crate::domain::Domain;
use crate::fault::{Fault, Reason};
use ints::times;
use rows::{Kind, QUANTITIES, Question, Row};
use std::array;

// A question in which more quantities occur is too wide.
pub const MOST_WIDTH: usize = 4;

// The highest value that a quantity takes.
pub const TOP: u8 = 15;

// The row's sum where the quantities have these values.
fn value_at(row: &Row, point: &[u8; QUANTITIES]) -> i64
    ensures { result ≡ value row.now (at point.now) }
{
    // `sum` would have every run of its turns fit; std has the lemmas for that of numbers without a sign only.
    let mut sum = 0i64;
    for (j, x) in point.iter().enumerate() {
        sum += times(u32::from(*x), row.coef(j));
    }
    sum
}

fn met(row: &Row, point: &[u8; QUANTITIES]) -> bool
    ensures { result ≡ meets (at point.now) row.now }
{
    match row.kind() {
        Kind::AtMost => value_at(row, point) <= i64::from(row.bound()),
        Kind::Unequal => value_at(row, point) != i64::from(row.bound()),
    }
}

fn all_met(rows: &[Row], point: &[u8; QUANTITIES]) -> bool
    ensures { result ≡ meets_all (at point.now) rows.now }
{
    rows.iter().all(|row| met(row, point))
}

// These values meet all facts and break the goal.
fn breaks_goal(question: Question<'_>, point: &[u8; QUANTITIES]) -> bool
    ensures { result ≡ breaks question.entry.facts.now question.entry.goal.now (at point.now) }
{
    all_met(question.facts, point) && !met(question.goal, point)
}

fn any_coef(rows: &[Row], j: usize) -> bool
    ensures { result ≡ occurs_in j rows.now }
{
    rows.iter().any(|row| row.coef(j) != 0)
}

fn occurs_at(question: Question<'_>, j: usize) -> bool
    ensures { result ≡ occurs question.entry.facts.now question.entry.goal.now j }
{
    question.goal.coef(j) != 0 || any_coef(question.facts, j)
}

// Which of the quantities of a question occur.
#[derive(Clone, Copy)]
struct Occurring<'a> {
    question: Question<'a>,
    flags: [bool; QUANTITIES],
    ghost flagged: { (j : ℕ) → j < 16 → slice_index_or flags j false ≡ occurs question.facts.now question.goal.now j },
}

impl<'a> Occurring<'a> {
    fn new(question: Question<'a>) -> Occurring<'a>
        ensures facts { result.question.facts.now ≡ question.entry.facts.now }
        ensures goal { result.question.goal.now ≡ question.entry.goal.now }
    {
        Occurring {
            question,
            flags: array::from_fn(|j| occurs_at(question, j)),
        }
    }

    // How many occur.
    fn count(&self) -> usize
        ensures { result ≡ width self.now.question.facts.now self.now.question.goal.now }
    {
        self.flags.iter().filter(|flag| **flag).count()
    }

    // Some values of the occurring quantities below n, set in the point, break the goal.
    fn some_break(&self, n: usize, point: [u8; QUANTITIES]) -> bool
        requires { n ≤ 16 }
        ensures { result ≡ broken self.now.question.facts.now self.now.question.goal.now n point }
    {
        if n == 0 {
            return breaks_goal(self.question, &point);
        }
        let j = n - 1;
        if !self.flags[j] {
            return self.some_break(j, point);
        }
        // The recursion stands in a loop: a closure would be a part of it, and owe that `any` may call it at each turn.
        for v in 0..=TOP {
            let mut next = point;
            next[j] = v;
            if self.some_break(j, next) {
                return true;
            }
        }
        false
    }
}

// The domain of small sizes: it goes by every assignment of 0 to 15.
#[derive(Clone, Copy, Debug, PartialEq, Eq)]
pub struct Modes;

impl Domain for Modes {
    ghost low = { λ _. pos 0 };

    ghost high = { λ _. pos 15 };

    ghost outcome = { λ _. modes };

    ghost range = { Prim.search rules };

    ghost sound = { λ s. modes-sound };

    fn low(&self) -> i32 {
        0
    }

    fn high(&self) -> i32 {
        i32::from(TOP)
    }

    fn verify(&self, question: Question<'_>, certificate: &[u32]) -> Result<(), Fault>
        ensures value { result ≡ modes question.entry.facts.now question.entry.goal.now certificate.now }
        ensures decides { Decides question.entry.facts.now question.entry.goal.now result }
    {
        if !question.well_shaped() || !certificate.is_empty() {
            return Err(Fault::new(Reason::Shape));
        }
        let occurring = Occurring::new(question);
        if occurring.count() > MOST_WIDTH {
            return Err(Fault::new(Reason::Width));
        }
        if occurring.some_break(QUANTITIES, [0; QUANTITIES]) {
            return Err(Fault::new(Reason::Case));
        }
        Ok(())
    }
}
