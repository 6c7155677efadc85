ghost use Rattle.std.specs.Prelude.{◌≡◌};
ghost use Rattle.quoted.specs.Firsts.{first};
ghost use Rattle.quoted.specs.Fewer.{first-sound};
ghost use Rattle.std.proofs.Common.{rules};

use domains::{Domain, Fault, Raise, Reason};
use rows::Question;

// A layer: its certificate begins with how many of the facts the domain below is to see.
#[derive(Clone, Copy, Debug, PartialEq, Eq)]
pub struct First<D> {
    inner: D,
}

impl<D> First<D> {
    pub fn new(inner: D) -> First<D>
        ensures { result.inner ≡ inner }
    {
        First { inner }
    }
}

impl<D: Domain> Domain for First<D> {
    ghost low = { λ s. D.Domain.low s.inner };

    ghost high = { λ s. D.Domain.high s.inner };

    ghost outcome = { λ s. first (D.Domain.outcome s.inner) };

    ghost range = { Prim.search rules };

    ghost sound = { λ s. first-sound (D.Domain.outcome s.inner) _ _ (D.Domain.sound s.inner) };

    fn low(&self) -> i32 {
        self.inner.low()
    }

    fn high(&self) -> i32 {
        self.inner.high()
    }

    fn verify(&self, question: Question<'_>, certificate: &[u32]) -> Result<(), Fault> {
        let [n, rest @ ..] = certificate else {
            return Err(Fault::new(Reason::Shape));
        };
        if !question.well_shaped() {
            return Err(Fault::new(Reason::Shape));
        }
        let n = *n as usize;
        if n > question.facts.len() {
            return Err(Fault::new(Reason::Number));
        }
        let fewer = Question {
            facts: &question.facts[..n],
            ..question
        };
        self.inner.verify(fewer, rest).raise()
    }
}
