use crate::sample::{Sample, Size};
use domains::{Domain, Linear};
use provers::{FourierMotzkin, MOST_NUMBERS, Prover};
use rows::{Kind, MOST_FACTS, QUANTITIES, Question, Row};

// What came of some questions: how many had a proposal, how many of these were good, and the sum of all numbers proposed.
#[derive(Clone, Copy)]
pub struct Tally {
    pub proposed: u32,
    pub good: u32,
    pub sum: u64,
}

impl Tally {
    fn ask(&mut self, question: Question<'_>) {
        let mut buffer = [0u32; MOST_NUMBERS];
        let Some(count) = FourierMotzkin.ask(question, &mut buffer) else {
            return;
        };
        self.proposed = self.proposed.saturating_add(1);
        self.sum = buffer.iter().fold(
            self.sum,
            |sum, number| sum.saturating_add(u64::from(*number)),
        );
        if count <= MOST_NUMBERS && Linear.verify(question, &buffer[0..count]).is_ok() {
            self.good = self.good.saturating_add(1);
        }
    }

    // None only where a sample is past the limits of a row.
    pub(crate) fn of(size: Size, questions: u32) -> Option<Tally> {
        let mut tally = Tally {
            proposed: 0,
            good: 0,
            sum: 0,
        };
        let mut sample = Sample::new();
        let mut room = [Row::new([0; QUANTITIES], 0, Kind::AtMost)?; MOST_FACTS];
        let facts = &mut room[..size.facts.min(MOST_FACTS)];
        for _ in 0..questions {
            let goal = sample.question(size.quantities, facts)?;
            tally.ask(Question { facts, goal: &goal });
        }
        Some(tally)
    }
}
