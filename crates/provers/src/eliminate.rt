ghost use Rattle.std.specs.Prelude.{◌≡◌, ◌<◌, List, Option};
ghost use Rattle.std.specs.List.{flat_map};
ghost use Rattle.provers.specs.declared.derived.Derived.{Derived};
ghost use Rattle.provers.specs.Elimination.{push_all, zero_of, pair_of, pairs_of, without, without_all, from, first_below};
ghost use Rattle.provers.specs.WorkLists.{answered};

use crate::combine::Positive;
use crate::derived::{Derived, MULTIPLIERS};
use crate::worklist::{PastLimit, WorkList, push};

// A step is done with each row. What it gives of a row, if it puts just that on each list, is put on the list for all of them.
fn with_each<F>(rows: &[Derived], into: &mut WorkList, step: F) -> Result<(), PastLimit>
where
    F: Fn(&Derived, &mut WorkList) -> Result<(), PastLimit>,
    requires { F.IsAlwaysCallable step }
    ensures { (gives : Derived → List (Option Derived)) → ((row : _) (before : _) (r : _) (after : _) → F.post step row before r after → answered r after.now.items ≡ push_all before.now.items (gives row.now)) → answered result into.new.items ≡ push_all into.old.items (flat_map gives rows.now) }
{
    for row in rows {
        step(row, into)?;
    }
    Ok(())
}

// The row, if q does not occur in it. That q is below 16 is asked here, at `push_pairs` and at `eliminate`: `Positive` holds it with a row, and a type for q alone would be opened at each use.
#[tactic(auto, unfolding(crate::specs::Elimination::push_all))]
fn push_zero(q: usize, row: &Derived, into: &mut WorkList) -> Result<(), PastLimit>
    requires { q < 16 }
    ensures { answered result into.new.items ≡ push_all into.old.items (zero_of q row.now) }
{
    if row.coefs[q] == 0 {
        push(into, *row)
    } else {
        Ok(())
    }
}

// The positive row with this one, if that is negative.
#[tactic(auto, unfolding(crate::specs::Elimination::push_all))]
fn push_pair(p: Positive<'_>, row: &Derived, into: &mut WorkList) -> Result<(), PastLimit>
    ensures { answered result into.new.items ≡ push_all into.old.items (pair_of p.entry.q p.entry.p.now row.now) }
{
    if row.coefs[p.q] < 0 {
        let made = p.combined(row)?;
        push(into, made)
    } else {
        Ok(())
    }
}

// The row with each negative one, if it is positive.
#[tactic(auto, unfolding(crate::specs::Elimination::push_all))]
fn push_pairs(
    q: usize,
    rows: &[Derived],
    row: &Derived,
    into: &mut WorkList,
) -> Result<(), PastLimit>
    requires { q < 16 }
    ensures { answered result into.new.items ≡ push_all into.old.items (pairs_of q rows.now row.now) }
{
    if row.coefs[q] > 0 {
        let positive = Positive { q, p: row };
        with_each(rows, into, |m, into| push_pair(positive, m, into))
    } else {
        Ok(())
    }
}

// Makes the list without q from the rows.
fn eliminate(q: usize, rows: &[Derived], into: &mut WorkList) -> Result<(), PastLimit>
    requires { q < 16 }
    ensures { answered result into.new.items ≡ without q rows.now }
{
    into.clear();
    with_each(rows, into, |row, into| push_zero(q, row, into))?;
    with_each(rows, into, |row, into| push_pairs(q, rows, row, into))
}

// Two quantities a turn, so that the rows go to the spare list and back and no list is copied.
pub(crate) fn eliminate_all(rows: &mut WorkList, spare: &mut WorkList) -> Result<(), PastLimit>
    ensures { answered result rows.new.items ≡ without_all (from 0) rows.old.items }
{
    for turn in 0..8 {
        eliminate(2 * turn, rows.as_slice(), spare)?;
        eliminate(2 * turn + 1, spare.as_slice(), rows)?;
    }
    Ok(())
}

// The multipliers of the first row with a bound below 0.
pub(crate) fn first_below(rows: &[Derived]) -> Option<[u32; MULTIPLIERS]>
    ensures { result ≡ first_below rows.now }
{
    let row = rows.iter().find(|row| row.bound < 0)?;
    Some(row.times)
}
