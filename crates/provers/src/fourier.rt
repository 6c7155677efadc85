ghost use Rattle.std.specs.Prelude.{◌≡◌, ◌≤◌, length};
ghost use Rattle.provers.specs.Elimination.{refutation, fourier_motzkin};
ghost use Rattle.std.proofs.lemmas.Bool.{and_parts, leb-true};
ghost use Rattle.rows.specs.Questions.{well_shaped};
ghost use Rattle.provers.specs.Lengths.{short-if};

use crate::begin::begin;
use crate::derived::MULTIPLIERS;
use crate::eliminate::{eliminate_all, first_below};
use crate::prover::{Prover, offer};
use crate::worklist::WorkList;
use rows::Question;

// Multipliers under which the facts and the negated goal add to 0 < 0, found by elimination.
fn refutation(question: Question<'_>) -> Option<[u32; MULTIPLIERS]>
    ensures { result ≡ refutation question.entry.facts.now question.entry.goal.now }
{
    let mut rows = WorkList::new();
    begin(question, &mut rows).ok()?;
    let mut spare = WorkList::new();
    eliminate_all(&mut rows, &mut spare).ok()?;
    first_below(rows.as_slice())
}

// Proposes certificates for the linear domain.
#[derive(Clone, Copy, Debug, PartialEq, Eq)]
pub struct FourierMotzkin;

impl Prover for FourierMotzkin {
    ghost proposal = { λ _. fourier_motzkin };

    ghost short = { λ s facts goal. short-if (length facts) (well_shaped facts goal) (refutation facts goal) (λ e. leb-true _ _ (and_parts _ _ e).0) };

    fn ask(&self, question: Question<'_>, buffer: &mut [u32]) -> Option<usize> {
        if !question.well_shaped() {
            return None;
        }
        let times = refutation(question)?;
        offer(&times[0..question.facts.len() + 1], buffer)
    }
}
