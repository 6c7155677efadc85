ghost use Rattle.std.proofs.Props.{props};
ghost use Rattle.records.specs.Laying.{columns_of};
ghost use Rattle.records.specs.Sound.{Sound};

use crate::in_force::Terms;
use records::Laid;

mod sides;

// The conditions of sound tables, read under the terms in force. A stretch of them is given to each call and is no field here, since rows are also read at a position alone.
#[derive(Clone, Copy)]
pub(crate) struct Conditions<'t, 'r, 'a> {
    pub tables: &'t Laid<'r>,
    pub terms: Terms<'a>,
    ghost sound: { Sound (columns_of tables.now) } by { Prim.hlevel props },
}
