// Asks Fourier-Motzkin some thousand questions, has the linear domain verify what it proposes, and prints what came of it.
// How long that took goes to standard error, so that the output is always the same.
#![tactic(auto)]

mod sample;
mod tally;

use sample::Size;
use std::io;
use std::time::Instant;
use tally::Tally;

const QUESTIONS: u32 = 4000;

const SIZES: [Size; 4] = [
    Size {
        facts: 4,
        quantities: 2,
    },
    Size {
        facts: 12,
        quantities: 3,
    },
    Size {
        facts: 16,
        quantities: 8,
    },
    Size {
        facts: 24,
        quantities: 16,
    },
];

fn measure(rt: &HostRuntime, size: Size) -> io::Result<()> {
    let start = Instant::now(rt)?;
    let Some(tally) = Tally::of(size, QUESTIONS) else {
        return println!(rt; "no sample");
    };
    let nanos = start.elapsed(rt)?.as_nanos();
    let each = nanos / u128::from(QUESTIONS);
    let rate = 1_000_000_000u128.checked_div(each).unwrap_or(0);
    let facts = size.facts;
    let quantities = size.quantities;
    let Tally {
        proposed,
        good,
        sum,
    } = tally;
    println!(rt;
        "{facts} facts, {quantities} quantities: {QUESTIONS} asked, {proposed} proposed, {good} good, sum {sum}"
    )?;
    eprintln!(rt; "{facts} facts, {quantities} quantities: {each} ns each, {rate} a second")
}

fn main(rt: HostRuntime) -> io::Result<()> {
    for size in SIZES {
        measure(&rt, size)?;
    }
    Ok(())
}
