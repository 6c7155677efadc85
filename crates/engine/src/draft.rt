ghost use Rattle.std.specs.Prelude.{◌≤◌};
ghost use Rattle.std.proofs.Props.{props};
ghost use Rattle.engine.specs.Kept.{Kept, holds_prop};
ghost use Rattle.engine.specs.Sheeted.{Sheeted};

use language::MOST_OBLIGATIONS;
use reading::Sizes;
use records::Record;

mod clearing;
pub mod making;
mod methods;
mod readiness;
mod settling;

// A sheet in a range, as it lies in records that the caller lends, with a mark for each obligation that is settled. Each settled row holds under its facts for all assignments in the range.
#[derive(Drop)]
pub struct Draft<'r> {
    records: &'r mut [Record],
    low: i32,
    high: i32,
    sizes: Sizes,
    marks: [bool; MOST_OBLIGATIONS],
    ghost few: { sizes.owed ≤ 128 },
    ghost kept: { Kept low high records.now sizes.owed marks } by { Prim.hlevel (props, holds_prop) },
    ghost sheeted: { ∥ Sheeted low high records.now sizes marks ∥₁ },
}
