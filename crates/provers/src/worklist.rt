ghost use Rattle.std.specs.Prelude.{◌≡◌, [], ◌∷◌, Some};
ghost use Rattle.provers.specs.Elimination.{push_all};
ghost use Rattle.provers.specs.WorkLists.{answered};

use crate::derived::Derived;
use arrayvec::ArrayVec;

// Elimination ends where a list would grow longer.
pub const MOST_ROWS: usize = 128;

// A list of derived rows, whose memory lies in itself.
pub(crate) type WorkList = ArrayVec<Derived, MOST_ROWS>;

// A list grows too long, or a number too large: elimination ends.
#[derive(Clone, Copy, Debug, PartialEq, Eq)]
pub(crate) struct PastLimit;

// Refused where the list is full.
pub(crate) fn push(into: &mut WorkList, row: Derived) -> Result<(), PastLimit>
    ensures { answered result into.new.items ≡ push_all into.old.items (Some row ∷ []) }
{
    into.try_push(row).map_err(|_| PastLimit)
}
