ghost use Rattle.std.specs.Prelude.{◌≡◌, ◌+◌, ◌-◌, ◌<◌, ◌≤◌, ◌∷◌, [], ◌++◌, pos, is_ok, true, length, map, List, ℤ};
ghost use Rattle.language.specs.Entering.{gathered};
ghost use Rattle.pile.specs.Entries.{entries, room};
ghost use Rattle.records.specs.Columns.{params_in};
ghost use Rattle.records.specs.Tables.{stretch, param_of};
ghost use Rattle.entering.specs.Gathering.{Gathered};

use crate::slots::param_at;
use language::Part;
use pile::Pile;
use records::{Param, Record};

// The length of a part as a value; one that no value has is 0.
fn length_of(part: Part) -> i32
    ensures { part.length < 2147483648 → result ≡ pos part.length }
{
    if part.length > 2147483647 {
        return 0;
    }
    part.length as i32
}

// A value joins those gathered so far, which leave room for it.
fn put(into: &mut Pile<'_, i32>, value: i32)
    requires { length (entries into.old) < room into.old }
    ensures held { entries into.new ≡ entries into.old ++ value ∷ [] }
    ensures room { room into.new ≡ room into.old }
{
    into.push(value).unwrap();
}

// Where the head has no more names, nothing may be left over.
fn none_left(numbers: &[i32], parts: &[Part]) -> Option<()>
    ensures { (old : List ℤ) → Gathered result (gathered [] numbers.now parts.now) parts.now old old }
{
    if numbers.len() > 0 {
        return None;
    }
    if parts.len() > 0 {
        return None;
    }
    Some(())
}

// The values of a rule's names join those gathered so far, in the order of its head, whose parameters are a stretch of their table; none where there are too few numbers or parts, or too many.
pub fn gather(
    records: &[Record],
    at: usize,
    to: usize,
    numbers: &[i32],
    parts: &[Part],
    into: &mut Pile<'_, i32>,
) -> Option<()>
    requires { length (entries into.old) + (to - at) ≤ room into.old }
    ensures gathers { Gathered result (gathered (map param_of (stretch (params_in records.now) at to)) numbers.now parts.now) parts.now (entries into.old) (entries into.new) }
    ensures room { room into.new ≡ room into.old }
{
    if at >= to {
        return none_left(numbers, parts);
    }
    let Some(param) = param_at(records, at) else {
        return none_left(numbers, parts);
    };
    match param {
        Param::Number => {
            let (number, rest) = numbers.split_first()?;
            put(into, *number);
            gather(records, at + 1, to, rest, parts, into)
        }
        Param::List => {
            let (part, rest) = parts.split_first()?;
            put(into, length_of(*part));
            gather(records, at + 1, to, numbers, rest, into)
        }
    }
}
