ghost use Rattle.std.specs.Prelude.{[], if◌then◌else◌, Some, None};
ghost use Rattle.rows.specs.Questions.{well_shaped};
ghost use Rattle.std.proofs.Common.{rules};

use crate::prover::Prover;
use rows::Question;

// Proposes no numbers, for domains that need none.
#[derive(Clone, Copy, Debug, PartialEq, Eq)]
pub struct Empty;

impl Prover for Empty {
    ghost proposal = { λ _ facts goal. (if well_shaped facts goal then Some [] else None) };

    ghost short = { Prim.search rules };

    fn ask(&self, question: Question<'_>, _buffer: &mut [u32]) -> Option<usize> {
        question.well_shaped().then_some(0)
    }
}
