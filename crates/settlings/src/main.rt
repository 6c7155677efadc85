// A sheet settled by a domain, a layer and a prover that the engine does not name.
#![tactic(auto)]

mod each;
mod fixed;

use domains::{Domain, Linear};
use each::settled_to_ready;
use engine::{Draft, LEAST_RECORDS, Record, Refusal, make};
use fixed::Fixed;
use provers::{FourierMotzkin, Prover};
use quoted::{First, Quoted};
use std::io;

const TEXT: &'static [u8] =
    b"rule pick(a[n], i) needs 0 <= i, i < n = a[i]; rule head(a[n]) needs 1 <= n = pick(a, 0);";

fn print_answer(rt: &HostRuntime, answer: Result<(), Refusal>) -> io::Result<()> {
    match answer {
        Ok(()) => println!(rt; "good"),
        Err(refusal) => println!(rt;
            "{} {refusal} place {} number {} reason {} depth {}",
            refusal.number(),
            refusal.place(),
            refusal.named(),
            refusal.reason(),
            refusal.depth(),
        ),
    }
}

fn settle<D: Domain, P: Prover>(
    rt: &HostRuntime,
    draft: &mut Draft<'_>,
    number: usize,
    domain: &D,
    prover: &P,
) -> io::Result<()> {
    print!(rt; "settle {number}: ")?;
    print_answer(rt, draft.settle(number, domain, prover))
}

fn print_ready(rt: &HostRuntime, draft: &Draft<'_>) -> io::Result<()> {
    print!(rt; "ready: ")?;
    print_answer(rt, draft.ready())
}

// Facts are quoted by their positions, which a prover says that was told.
fn by_quotes(rt: &HostRuntime, records: &mut [Record]) -> io::Result<()> {
    let quotes = First::new(Quoted);
    let mut draft = make(TEXT, -1_000, 1_000, records);
    settle(rt, &mut draft, 0, &quotes, &Fixed::new(3, 1))?;
    settle(rt, &mut draft, 1, &quotes, &Fixed::new(3, 7))?;
    settle(rt, &mut draft, 1, &quotes, &Fixed::new(4, 2))?;
    settle(rt, &mut draft, 1, &Quoted, &Fixed::new(3, 2))?;
    settle(rt, &mut draft, 1, &quotes, &Fixed::new(3, 2))?;
    settle(rt, &mut draft, 4, &quotes, &Fixed::new(3, 2))?;
    print_ready(rt, &draft)?;
    settle(rt, &mut draft, 2, &Linear, &FourierMotzkin)?;
    print_ready(rt, &draft)?;
    settle(rt, &mut draft, 3, &quotes, &Fixed::new(2, 1))?;
    print_ready(rt, &draft)?;
    let book = draft.clear();
    match book.closed() {
        None => println!(rt; "open"),
        Some(_) => println!(rt; "closed"),
    }
}

fn main(rt: HostRuntime) -> anyhow::Result<()> {
    let mut records = vec![in rt.alloc(); Record::zero(); LEAST_RECORDS]?;
    by_quotes(&rt, &mut records)?;
    print!(rt; "each by elimination: ")?;
    let answer = settled_to_ready(TEXT, 0, 1_000, &mut records, &Linear, &FourierMotzkin);
    print_answer(&rt, answer)?;
    Ok(())
}
