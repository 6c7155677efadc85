ghost use Rattle.std.specs.Prelude.{◌≡◌, ℕ, length};
ghost use Rattle.language.specs.Running.{in_range};
ghost use Rattle.language.specs.Entering.{every, part_fits, allowed};

use language::{LONGEST_PART, MOST_FUEL, Part};

// Whether a value lies in the range.
fn in_range(low: i32, high: i32, value: i32) -> bool
    ensures { result ≡ in_range low high value }
{
    low <= value && value <= high
}

// Whether each of them does.
fn all_in_range(low: i32, high: i32, values: &[i32]) -> bool
    ensures { result ≡ every (in_range low high) values.now }
{
    values.iter().all(|value| in_range(low, high, *value))
}

// Whether a part lies in so many cells, and its length keeps the limit and the range.
fn part_fits(high: i32, cells: usize, part: Part) -> bool
    ensures { result ≡ part_fits high cells part }
{
    u64::from(part.start) + u64::from(part.length) <= cells as u64
        && part.length <= LONGEST_PART
        && i64::from(part.length) <= i64::from(high)
}

// Whether each part does.
fn parts_fit(high: i32, cells: usize, parts: &[Part]) -> bool
    ensures { result ≡ every (part_fits high cells) parts.now }
{
    parts.iter().all(|part| part_fits(high, cells, *part))
}

// Whether fuel, numbers, cells and parts are those that a run may be given.
pub fn allowed(
    low: i32,
    high: i32,
    fuel: u32,
    numbers: &[i32],
    parts: &[Part],
    cells: &[i32],
) -> bool
    ensures { result ≡ allowed low high fuel numbers.now parts.now cells.now }
{
    fuel <= MOST_FUEL
        && all_in_range(low, high, numbers)
        && all_in_range(low, high, cells)
        && parts_fit(high, cells.len(), parts)
}
