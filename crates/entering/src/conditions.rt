ghost use Rattle.std.specs.Prelude.{◌≡◌, ◌+◌, ◌-◌, ◌<◌, ◌≤◌, pos, ◌*ℤ◌};
ghost use Rattle.language.specs.Comparing.{atom_value, side_value, satisfied};
ghost use Rattle.language.specs.Entering.{first_broken};
ghost use Rattle.language.specs.Vocabulary.{holds};
ghost use Rattle.records.specs.Columns.{tables_in};
ghost use Rattle.records.specs.Tables.{atom_of, side_in, condition_in, conditions_in};

use crate::slots::{condition_at, item_at};
use language::Comparison;
use records::{Atom, Condition, Item, Record, Stretch};

// What an atom is worth, where names have these values; there is no result yet.
fn atom_value(values: &[i32], atom: Atom) -> i32
    ensures { result ≡ atom_value values.now (pos 0) (atom_of atom) }
{
    match atom {
        Atom::One => 1,
        Atom::Named(slot) => values.get(slot).copied().unwrap_or(0),
        Atom::TheResult => 0,
    }
}

// What an item is worth.
fn item_value(values: &[i32], item: Item) -> i64
    ensures { result ≡ item.factor *ℤ atom_value values.now (pos 0) (atom_of item.atom) }
{
    i64::from(item.factor) * i64::from(atom_value(values, item.atom))
}

// What a side is worth, added up exactly.
fn side_value(records: &[Record], side: Stretch, values: &[i32]) -> i128
    ensures { result ≡ side_value values.now (pos 0) (side_in (tables_in records.now).items side.from side.to) }
{
    let mut total: i128 = 0;
    for at in side.from..side.to {
        let Some(item) = item_at(records, at) else {
            return total;
        };
        total += i128::from(item_value(values, item));
    }
    total
}

// Whether a comparison holds between two sides.
fn holds(comparison: Comparison, a: i128, b: i128) -> bool
    ensures { result ≡ holds comparison a b }
{
    match comparison {
        Comparison::Less => a < b,
        Comparison::LessOrEqual => a <= b,
        Comparison::Equal => a == b,
        Comparison::NotEqual => a != b,
    }
}

// Whether a condition is met, in exact arithmetic.
fn satisfied(records: &[Record], condition: Condition, values: &[i32]) -> bool
    ensures { result ≡ satisfied values.now (pos 0) (condition_in (tables_in records.now).items condition) }
{
    holds(
        condition.comparison,
        side_value(records, condition.left, values),
        side_value(records, condition.right, values),
    )
}

// The number of the first condition of a stretch that is broken, where the first has a number that is given.
pub fn first_broken(
    records: &[Record],
    at: usize,
    to: usize,
    number: u32,
    values: &[i32],
) -> Option<u32>
    requires { number + (to - at) < 4294967296 }
    ensures { result ≡ first_broken number values.now (conditions_in (tables_in records.now).items (tables_in records.now).conditions at to) }
{
    if at >= to {
        return None;
    }
    let condition = condition_at(records, at)?;
    if !satisfied(records, condition, values) {
        return Some(number);
    }
    first_broken(records, at + 1, to, number + 1, values)
}
