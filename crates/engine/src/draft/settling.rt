ghost use Rattle.std.specs.Prelude.{◌≡◌, ◌<◌, ◌&&◌, true, int_le, slice_set};
ghost use Rattle.language.specs.Drafts as Drafts;
ghost use Rattle.engine.specs.Drafting.{DraftIs};
ghost use Rattle.engine.specs.Settling.{meant, proposing, unproved_at, FollowsAt, Marked, Proven, Settles};

use super::Draft;
use crate::lending::room;
use asking::{Unproved, ask_then_verify};
use domains::Domain;
use language::Refusal;
use provers::Prover;
use rows::{MOST_FACTS, Question};

// The refusal of an obligation at this place. Both types are of other crates, so there is no From.
fn unproved_at(place: usize, why: Unproved) -> Refusal
    ensures { result ≡ unproved_at place why }
{
    match why {
        Unproved::NoProposal => Refusal::Unproved { place, fault: None },
        Unproved::Faulty(fault) => Refusal::Unproved {
            place,
            fault: Some(fault),
        },
    }
}

impl Draft<'_> {
    // Whether the domain's range holds the draft's.
    fn is_within<D: Domain>(&self, domain: &D) -> bool
        ensures { result ≡ int_le (D.Domain.low domain.now) self.now.low && int_le self.now.high (D.Domain.high domain.now) }
    {
        domain.low() <= self.low && self.high <= domain.high()
    }

    // Whether the prover proposes for the obligation with this number what the domain finds good; where it does, the obligation's row holds under its facts in the draft's range.
    fn prove<D: Domain, P: Prover>(
        &self,
        number: usize,
        domain: &D,
        prover: &P,
    ) -> Result<(), Refusal>
        ensures value { (d : Drafts.Draft) → DraftIs self.now d → result ≡ Drafts.settle d number (meant (D.Domain.low domain.now) (D.Domain.high domain.now) (D.Domain.outcome domain.now)) (proposing (P.Prover.proposal prover.now)) }
        ensures sound { Proven result self.now number }
    {
        let mut facts = room();
        let asked = self.question(number, &mut facts)?;
        if !self.is_within(domain) {
            return Err(Refusal::Narrow);
        }
        // No obligation has more facts than there is room for.
        let question = Question {
            facts: &facts[..asked.facts.min(MOST_FACTS)],
            goal: &asked.goal,
        };
        ask_then_verify(domain, prover, question).map_err(|why| unproved_at(asked.place, why))
    }

    // Marks an obligation as settled. It is owed that its row holds under its facts, for all assignments in the draft's range.
    fn mark(&mut self, number: usize)
        requires below { number < self.old.sizes.owed }
        requires follows { FollowsAt self.old.low self.old.high self.old.records.now number }
        ensures { Marked self.old self.new number }
    {
        self.marks[number] = true;
    }

    // Settles the obligation with this number: the prover is asked with room for 128 numbers, the domain verifies what it proposes, and where that is good the obligation is marked. A refusal changes nothing.
    pub fn settle<D: Domain, P: Prover>(
        &mut self,
        number: usize,
        domain: &D,
        prover: &P,
    ) -> Result<(), Refusal>
        ensures { Settles result self.old self.new number (meant (D.Domain.low domain.now) (D.Domain.high domain.now) (D.Domain.outcome domain.now)) (proposing (P.Prover.proposal prover.now)) }
    {
        self.prove(number, domain, prover)?;
        self.mark(number);
        Ok(())
    }
}
