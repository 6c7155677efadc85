ghost use Rattle.std.specs.Prelude.{[], ◌∷◌, Some};
ghost use Rattle.std.proofs.Common.{rules};

use provers::{Prover, offer};
use rows::Question;

// A prover that proposes the same two numbers whatever is asked.
#[derive(Clone, Copy, Debug, PartialEq, Eq)]
pub(crate) struct Fixed {
    first: u32,
    second: u32,
}

impl Fixed {
    pub(crate) fn new(first: u32, second: u32) -> Fixed {
        Fixed { first, second }
    }
}

impl Prover for Fixed {
    ghost proposal = { λ s facts goal. Some (s.first ∷ s.second ∷ []) };

    ghost short = { Prim.search rules };

    fn ask(&self, _question: Question<'_>, buffer: &mut [u32]) -> Option<usize> {
        offer(&[self.first, self.second], buffer)
    }
}
