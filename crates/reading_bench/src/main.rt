// Reads sheets of growing size and prints what came of it. How many bytes a second that makes goes to standard error, so that the output is always the same.
#![tactic(auto)]

mod sample;

use reading::{LEAST_RECORDS, Sizes, read};
use records::Record;
use sample::{full, nested, sheet};
use std::io;
use std::time::Instant;

const TURNS: u32 = 50;

fn measure(rt: &HostRuntime, name: &str, text: &[u8], records: &mut [Record]) -> io::Result<()> {
    let mut last = Ok(Sizes { rules: 0, owed: 0 });
    let start = Instant::now(rt)?;
    for _ in 0..TURNS {
        last = read(text, 0, 1000, records);
    }
    let nanos = start.elapsed(rt)?.as_nanos();
    let rules = last.map_or(0, |sizes| sizes.rules);
    let owed = last.map_or(0, |sizes| sizes.owed);
    let refused = last.err().map_or(0, |refusal| refusal.number());
    let bytes = text.len();
    let each = nanos / u128::from(TURNS);
    let rate = (bytes as u128 * 1_000_000_000)
        .checked_div(each)
        .unwrap_or(0);
    println!(rt; "{name}, {bytes} bytes: {rules} rules, {owed} obligations, refusal {refused}")?;
    eprintln!(rt; "{name}, {bytes} bytes: {each} ns, {rate} bytes a second")
}

fn run(rt: &HostRuntime) -> io::Result<()> {
    let heap = rt.alloc();
    let mut records = vec![in heap; Record::zero(); LEAST_RECORDS]?;
    for rules in [1u8, 2, 4, 8, 16, 25] {
        let text = sheet(heap, rules)?;
        measure(rt, "rules", text.as_slice(), &mut records)?;
    }
    for lets in [100u32, 400, 1600] {
        let text = nested(heap, lets)?;
        measure(rt, "nested lets", text.as_slice(), &mut records)?;
    }
    let text = full(heap)?;
    measure(rt, "full", text.as_slice(), &mut records)
}

fn main(rt: HostRuntime) -> io::Result<()> {
    run(&rt)
}
