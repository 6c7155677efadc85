use crate::commands::{DomainName, ProverName, Which};
use domains::{Domain, Linear, Modes};
use engine::{Draft, Refusal};
use provers::{Empty, FourierMotzkin};
use std::alloc::{AllocError, Global};

// What came of settling an obligation.
#[derive(Clone, Copy, Debug, PartialEq, Eq)]
pub(crate) struct Settling {
    pub number: usize,
    pub answer: Result<(), Refusal>,
}

// A match of two arms: a `dyn` value would be picked by the same match.
fn settle_in<D: Domain>(
    draft: &mut Draft<'_>,
    number: usize,
    domain: &D,
    prover: ProverName,
) -> Result<(), Refusal> {
    match prover {
        ProverName::FourierMotzkin => draft.settle(number, domain, &FourierMotzkin),
        ProverName::Empty => draft.settle(number, domain, &Empty),
    }
}

// Over the draft, by a domain and a prover that are named.
fn settle_one(
    draft: &mut Draft<'_>,
    number: usize,
    domain: DomainName,
    prover: ProverName,
) -> Settling {
    let answer = match domain {
        DomainName::Linear => settle_in(draft, number, &Linear, prover),
        DomainName::Modes => settle_in(draft, number, &Modes, prover),
    };
    Settling { number, answer }
}

// Settles one obligation, or each in turn.
pub(crate) fn settle(
    heap: Global,
    draft: &mut Draft<'_>,
    which: Which,
    domain: DomainName,
    prover: ProverName,
) -> Result<Vec<Settling>, AllocError> {
    let mut all = Vec::new(heap);
    match which {
        Which::One(number) => all.push(settle_one(draft, number, domain, prover))?,
        Which::All => {
            for number in 0..draft.owed() {
                all.push(settle_one(draft, number, domain, prover))?;
            }
        }
    }
    Ok(all)
}
