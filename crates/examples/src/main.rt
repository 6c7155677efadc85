// Every worked example, run and compared with what it must give.
#![tactic(auto)]

ghost use Rattle.examples.specs.Table.{Table};

mod questions;
mod refused;
mod worked;

use anyhow::anyhow;
use engine::{End, Refusal};
use questions::{EXAMPLES, Example, answer_to};
use reading::{LEAST_RECORDS, read};
use records::Record;
use refused::{REFUSED, Refused};
use std::io;
use worked::{WORKED, Worked, answers};

// The examples hold of the definitions, by computing.
fn table_stands()
    ensures { Table }
{}

fn mark(same: bool) -> &'static str {
    if same { "as it must" } else { "WRONG" }
}

fn show(rt: &HostRuntime, example: Example) -> anyhow::Result<bool> {
    let got = answer_to(rt.alloc(), example)?;
    let asked = example.asked;
    let facts = example.facts;
    let goal = example.goal;
    let certificate = example.certificate;
    let same = got == example.outcome;
    let mark = mark(same);
    println!(rt; "{asked}: from '{facts}' to '{goal}' by '{certificate}': {got}, {mark}")?;
    Ok(same)
}

fn show_refused(
    rt: &HostRuntime,
    example: Refused,
    records: &mut [Record],
) -> anyhow::Result<bool> {
    let text = example.text;
    let refusal = example.refusal;
    let same = read(text.as_bytes(), 0, 1000, records) == Err(refusal);
    let place = refusal.place();
    let mark = mark(same);
    println!(rt; "'{text}': {refusal} at {place}, {mark}")?;
    Ok(same)
}

fn all_as_they_must(same: bool) -> anyhow::Result<()> {
    if !same {
        return Err(anyhow!("some example does not give what it must"));
    }
    Ok(())
}

// This loop and that of the refused texts are no plainer as one: it would take a closure that holds the records, and owe that it may be called.
fn run_questions(rt: &HostRuntime) -> anyhow::Result<()> {
    let mut same = true;
    for example in EXAMPLES {
        same &= show(rt, example)?;
    }
    all_as_they_must(same)?;
    table_stands();
    let n = EXAMPLES.len();
    println!(rt; "{n} examples; these and the worked sheets are theorems about the definitions")?;
    Ok(())
}

fn run_refused(rt: &HostRuntime) -> anyhow::Result<()> {
    let mut same = true;
    let mut records = vec![in rt.alloc(); Record::zero(); LEAST_RECORDS]?;
    for example in REFUSED {
        same &= show_refused(rt, example, &mut records)?;
    }
    all_as_they_must(same)
}

// An answer in a line: an end with its place, steps and checks, or a refusal.
fn print_worked(
    rt: &HostRuntime,
    example: Worked,
    answer: Result<End, Refusal>,
    mark: &str,
) -> io::Result<()> {
    let text = example.text;
    let length = example.parts.first().map_or(0, |part| part.length);
    match answer {
        Ok(end) => println!(rt;
            "'{text}' on lists of {length}: {} {} at {} in {} steps, {} checks, {mark}",
            end.kind, end.value, end.place, end.steps, end.checks,
        ),
        Err(refusal) => println!(rt; "'{text}' on lists of {length}: refused as {refusal}, {mark}"),
    }
}

// A worked sheet is run: the answer is the example's, and the full run's but for the checks made, and so are the cells.
fn show_worked(rt: &HostRuntime, example: Worked, records: &mut [Record]) -> anyhow::Result<bool> {
    let heap = rt.alloc();
    let mut cells = example.cells.iter().copied().collect::<Vec<i32>>(heap)?;
    let mut others = example.cells.iter().copied().collect::<Vec<i32>>(heap)?;
    let (answer, full) = answers(example, records, &mut cells, &mut others);
    let agrees = match (answer, full) {
        (Ok(end), Ok(full)) => full
            == End {
                checks: full.checks,
                ..end
            },
        (answer, full) => answer == full,
    };
    let same = answer == example.answer && agrees && cells.as_slice() == others.as_slice();
    print_worked(rt, example, answer, mark(same))?;
    Ok(same)
}

fn run_worked(rt: &HostRuntime) -> anyhow::Result<()> {
    let mut same = true;
    let mut records = vec![in rt.alloc(); Record::zero(); LEAST_RECORDS]?;
    for example in WORKED {
        same &= show_worked(rt, example, &mut records)?;
    }
    all_as_they_must(same)
}

fn main(rt: HostRuntime) -> anyhow::Result<()> {
    run_questions(&rt)?;
    run_refused(&rt)?;
    run_worked(&rt)
}
