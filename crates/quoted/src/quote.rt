ghost use Rattle.std.specs.Prelude.{◌≡◌, pos, negsuc};
ghost use Rattle.quoted.specs.Quoting.{looser, quote_of, quoted};
ghost use Rattle.quoted.specs.Quotes.{quoted-sound};
ghost use Rattle.std.proofs.Common.{rules};

use domains::{Domain, Fault, Reason};
use rows::{Kind, Question, Row};

// The goal has the fact's coefficients and a bound no smaller.
fn is_looser(fact: &Row, goal: &Row) -> bool
    ensures { result ≡ looser fact.now goal.now }
{
    fact.coefs() == goal.coefs() && fact.bound() <= goal.bound()
}

fn quote(fact: &Row, goal: &Row) -> Result<(), Fault>
    ensures { result ≡ quote_of fact.now goal.now }
{
    if fact.kind() != Kind::AtMost {
        return Err(Fault::new(Reason::Kind));
    }
    if !is_looser(fact, goal) {
        return Err(Fault::new(Reason::Sum));
    }
    Ok(())
}

// A certificate is one number, the position of a fact that the goal only loosens.
#[derive(Clone, Copy, Debug, PartialEq, Eq)]
pub struct Quoted;

impl Domain for Quoted {
    ghost low = { λ _. negsuc 2147483647 };

    ghost high = { λ _. pos 2147483647 };

    ghost outcome = { λ _. quoted };

    ghost range = { Prim.search rules };

    ghost sound = { λ s facts goal. quoted-sound facts goal _ _ };

    fn low(&self) -> i32 {
        i32::MIN
    }

    fn high(&self) -> i32 {
        i32::MAX
    }

    fn verify(&self, question: Question<'_>, certificate: &[u32]) -> Result<(), Fault> {
        let [k] = certificate else {
            return Err(Fault::new(Reason::Shape));
        };
        if !question.well_shaped() {
            return Err(Fault::new(Reason::Shape));
        }
        let fact = question
            .facts
            .get(*k as usize)
            .ok_or(Fault::new(Reason::Number))?;
        quote(fact, question.goal)
    }
}
