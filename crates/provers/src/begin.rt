ghost use Rattle.std.specs.Prelude.{◌≡◌, [], map, neg_ℤ};
ghost use Rattle.std.specs.List.{range_with_len};
ghost use Rattle.rows.specs.Meaning.{coef};
ghost use Rattle.provers.specs.Derivations.{negation};
ghost use Rattle.provers.specs.Elimination.{push_all, fact_of, goal_of, originals};
ghost use Rattle.provers.specs.WorkLists.{answered};

use crate::derived::Derived;
use crate::worklist::{PastLimit, WorkList, push};
use rows::{Kind, QUANTITIES, Question, Row};
use std::array;

fn negated_coef(row: &Row, j: usize) -> i32
    ensures { result ≡ neg_ℤ (coef row.now j) }
{
    -row.coef(j)
}

fn negated_coefs(row: &Row) -> [i32; QUANTITIES]
    ensures { result ≡ map (λ j. neg_ℤ (coef row.now j)) (range_with_len 0 16) }
{
    array::from_fn(|j| negated_coef(row, j))
}

// None where the bound leaves a row's limits.
fn negation(row: &Row) -> Option<Row>
    ensures { result ≡ negation row.now }
{
    Row::new(negated_coefs(row), -row.bound() - 1, Kind::AtMost)
}

// The fact, if it is of kind at most.
#[tactic(auto, unfolding(crate::specs::Elimination::push_all))]
fn push_fact(i: usize, fact: &Row, into: &mut WorkList) -> Result<(), PastLimit>
    ensures { answered result into.new.items ≡ push_all into.old.items (fact_of i fact.now) }
{
    match fact.kind() {
        Kind::AtMost => push(into, Derived::original(i, fact)),
        Kind::Unequal => Ok(()),
    }
}

#[tactic(auto, unfolding(crate::specs::Elimination::push_all))]
fn push_goal(i: usize, goal: &Row, into: &mut WorkList) -> Result<(), PastLimit>
    ensures { answered result into.new.items ≡ push_all into.old.items (goal_of i goal.now) }
{
    let negated = negation(goal).ok_or(PastLimit)?;
    push(into, Derived::original(i, &negated))
}

// Puts the facts of kind at most and the negated goal on the list.
pub(crate) fn begin(question: Question<'_>, into: &mut WorkList) -> Result<(), PastLimit>
    ensures { answered result into.new.items ≡ push_all into.old.items (originals 0 question.entry.facts.now question.entry.goal.now) }
{
    for (i, fact) in question.facts.iter().enumerate() {
        push_fact(i, fact, into)?;
    }
    push_goal(question.facts.len(), question.goal, into)
}
