ghost use Rattle.std.specs.Prelude.{◌+◌, ◌^◌, ◌<◌, length};
ghost use Rattle.std.proofs.Props.{props};
ghost use Rattle.pile.specs.Entries.{entries, room};
ghost use Rattle.showing.specs.Probes.{Apart};

use letters::Token;
use pile::Pile;

// The tokens behind which one more is tried, at a place where none of them is; there is room for it.
#[derive(Drop)]
pub struct Probe<'s> {
    pub tokens: Pile<'s, Token>,
    pub place: usize,
    ghost room: { length (entries tokens) < room tokens },
    ghost ends: { place + 1 < 2 ^ 64 },
    ghost apart: { Apart (entries tokens) place } by { Prim.hlevel props },
}
