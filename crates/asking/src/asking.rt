ghost use Rattle.std.specs.Prelude.{◌≡◌};
ghost use Rattle.rows.specs.Meaning.{Follows};
ghost use Rattle.asking.specs.Answers.{tried, Proved};
ghost use Rattle.asking.specs.declared.unproved.Unproved.TheVariants.{Faulty};

use crate::unproved::Unproved;
use domains::{Domain, Fault};
use provers::{MOST_NUMBERS, Prover};
use rows::Question;

// By hand, not by thiserror: what it gives is promised.
impl From<Fault> for Unproved {
    ghost from_gives = { λ fault u. u ≡ Faulty fault };

    fn from(value: Fault) -> Unproved {
        Unproved::Faulty(value)
    }
}

// Asks the prover and has the domain verify its proposal; where that is good, the goal follows from the facts within the domain's range.
pub fn ask_then_verify<D: Domain, P: Prover>(
    domain: &D,
    prover: &P,
    question: Question<'_>,
) -> Result<(), Unproved>
    ensures value { result ≡ tried (P.Prover.proposal prover.now question.entry.facts.now question.entry.goal.now) (D.Domain.outcome domain.now question.entry.facts.now question.entry.goal.now) }
    ensures sound { Proved result → Follows (D.Domain.low domain.now) (D.Domain.high domain.now) question.entry.facts.now question.entry.goal.now }
{
    // Fixed memory, since asking allocates nothing.
    let mut buffer = [0u32; MOST_NUMBERS];
    let asked = prover.ask(question, &mut buffer);
    let count = asked.ok_or(Unproved::NoProposal)?;
    domain.verify(question, &buffer[..count])?;
    Ok(())
}
