ghost use Rattle.std.specs.Prelude.{◌≡◌};
ghost use Rattle.provers.specs.Proposals.{answer, filled};
ghost use Rattle.provers.specs.Elimination.{fourier_motzkin};
ghost use Rattle.asking.specs.Certificates.{Proposals-good, GoodFront};

use provers::{FourierMotzkin, Prover};
use rows::Question;

// Asks Fourier-Motzkin for a certificate: what it writes is good in the linear domain, whatever the question.
pub fn linear_certificate(question: Question<'_>, buffer: &mut [u32]) -> Option<usize>
    ensures count { result ≡ answer (fourier_motzkin question.entry.facts.now question.entry.goal.now) buffer.old }
    ensures after { buffer.new ≡ filled (fourier_motzkin question.entry.facts.now question.entry.goal.now) buffer.old }
    ensures good { GoodFront result question.entry.facts.now question.entry.goal.now buffer.new }
    ensures every { Proposals-good }
{
    FourierMotzkin.ask(question, buffer)
}
