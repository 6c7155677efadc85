ghost use Rattle.std.specs.Prelude.{◌≤◌};
ghost use Rattle.std.proofs.Props.{props};
ghost use Rattle.engine.specs.Kept.{Kept, holds_prop};
ghost use Rattle.engine.specs.Sheeted.{Sheeted};

use language::MOST_OBLIGATIONS;
use reading::Sizes;
use records::Record;

mod methods;
mod runs;

// A sheet in a range that was cleared: nothing more of it is settled, and once no guard is left it is open. It keeps what its draft kept.
#[derive(Drop)]
pub struct Book<'r> {
    pub(crate) records: &'r mut [Record],
    pub(crate) low: i32,
    pub(crate) high: i32,
    pub(crate) sizes: Sizes,
    pub(crate) marks: [bool; MOST_OBLIGATIONS],
    ghost few: { sizes.owed ≤ 128 },
    ghost kept: { Kept low high records.now sizes.owed marks } by { Prim.hlevel (props, holds_prop) },
    ghost sheeted: { ∥ Sheeted low high records.now sizes marks ∥₁ },
}
