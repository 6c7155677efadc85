ghost use Rattle.std.specs.Prelude.{◌≡◌, ℕ, List, ℤ, pos, ◌≤ℤ◌};
ghost use Rattle.rows.specs.declared.row.Row.{Row};
ghost use Rattle.rows.specs.Meaning.{Follows};
ghost use Rattle.domains.specs.Faults.{Outcome, Good};

use crate::fault::Fault;
use rows::Question;

// An index domain, by its meaning: a range, and an outcome for each question and certificate.
pub trait Domain {
    ghost low: { Self → ℤ };

    ghost high: { Self → ℤ };

    ghost outcome: { Self → List Row → Row → List ℕ → Outcome };

    fn low(&self) -> i32
        ensures { result ≡ low self.now };

    fn high(&self) -> i32
        ensures { result ≡ high self.now };

    fn verify(&self, question: Question<'_>, certificate: &[u32]) -> Result<(), Fault>
        ensures { result ≡ outcome self.now question.entry.facts.now question.entry.goal.now certificate.now };

    ghost range: { (s : Self) → (low s ≤ℤ pos 0) × (pos 0 ≤ℤ high s) };

    // Where the outcome is good, every assignment within the range that meets all facts meets the goal.
    ghost sound: { (s : Self) (facts : List Row) (goal : Row) (certificate : List ℕ) → Good (outcome s facts goal certificate) → Follows (low s) (high s) facts goal };
}

// The outcome of any domain; where it is good, the goal follows.
pub fn verified<D: Domain>(
    domain: &D,
    question: Question<'_>,
    certificate: &[u32],
) -> Result<(), Fault>
    ensures value { result ≡ D.Domain.outcome domain.now question.entry.facts.now question.entry.goal.now certificate.now }
    ensures sound { Good result → Follows (D.Domain.low domain.now) (D.Domain.high domain.now) question.entry.facts.now question.entry.goal.now }
{
    domain.verify(question, certificate)
}
