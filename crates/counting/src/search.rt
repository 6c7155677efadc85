ghost use Rattle.std.specs.Prelude.{◌≡◌, suc};
ghost use Rattle.records.specs.Laying.{columns_of};
ghost use Rattle.counting.specs.Counts.{First, first_over, is_up_to, placed_up_to};

use crate::placed::Placed;
use records::{Laid, Stretch};

// An entry has a place, and that is at most this one.
fn is_up_to<E: Placed>(entry: E, place: usize) -> bool
    ensures { result ≡ is_up_to place (E.place entry) }
{
    entry.place().is_some_and(|it| it <= place)
}

// How many entries of a table have a place up to this one.
fn count_up_to<E: Placed>(tables: &Laid<'_>, place: usize) -> usize
    ensures { result ≡ placed_up_to E.place (E.table (columns_of tables.now)).entries place }
{
    let all = Stretch {
        from: 0,
        to: tables.count::<E>(),
    };
    tables
        .entries_of::<E>(all)
        .filter(|entry| is_up_to(*entry, place))
        .count()
}

// The first place up to the text's end with more entries of a table up to it than the limit. The count only grows, so the places are halved.
pub fn first_over<E: Placed>(tables: &Laid<'_>, limit: usize, bytes: usize) -> Option<usize>
    ensures value { result ≡ first_over limit (placed_up_to E.place (E.table (columns_of tables.now)).entries) 0 (suc bytes) }
    ensures first { First limit (placed_up_to E.place (E.table (columns_of tables.now)).entries) bytes result }
{
    if count_up_to::<E>(tables, bytes) <= limit {
        return None;
    }
    // The places are no slice, so there is no partition_point of the library.
    let mut low = 0;
    let mut high = bytes;
    while low < high {
        let middle = low + (high - low) / 2;
        if count_up_to::<E>(tables, middle) > limit {
            high = middle;
        } else {
            low = middle + 1;
        }
    }
    Some(low)
}
