use crate::calling::{Call, Checks, Ran, print_cells, run_call};
use crate::pictures::print_line;
use crate::sheets::listing;
use domains::Linear;
use engine::{Duty, End, Ending, Listed, Record, Refusal, make, test};
use provers::FourierMotzkin;
use showing::line_at;
use std::alloc::{AllocError, Global};
use std::io;

// A rule of a sheet run twice, after all was settled that could be: with what is settled dropped, and with every check made.
#[derive(Drop)]
pub(crate) struct Priced {
    rule: usize,
    obligations: Vec<Listed>,
    book: Ran,
    full: Ran,
}

// Settles what elimination and the linear domain can settle, clears, and runs; in the widest range. A sheet that is not taken is refused.
pub(crate) fn price(
    heap: Global,
    text: &[u8],
    records: &mut [Record],
    call: &Call,
) -> Result<Result<Priced, Refusal>, AllocError> {
    if let Err(refusal) = test(text, i32::MIN, i32::MAX, records) {
        return Ok(Err(refusal));
    }
    let mut draft = make(text, i32::MIN, i32::MAX, records);
    for number in 0..draft.owed() {
        // What stays open is seen in the listing.
        let _answer = draft.settle(number, &Linear, &FourierMotzkin);
    }
    let obligations = listing(heap, &draft)?;
    let cleared = draft.clear();
    Ok(Ok(Priced {
        rule: call.rule,
        obligations,
        book: run_call(heap, &cleared, call, Checks::Open)?,
        full: run_call(heap, &cleared, call, Checks::All)?,
    }))
}

// Why a run is refused.
fn refused(refusal: Refusal) -> &'static str {
    match refusal {
        Refusal::Closed { .. } =>
            "the book is closed: this is not settled (explain shows what it asks)",
        Refusal::Call => "there is no such rule, or it takes another count of numbers or of lists",
        Refusal::Input =>
            "fuel is at most 1,000,000, and a part lies in the cells and has at most 4,096 of them",
        Refusal::Needs { .. } => "the rule is called with what breaks one of its needs",
        _ => refusal.word(),
    }
}

// Where and why a run stopped.
fn stopped(kind: Ending) -> &'static str {
    match kind {
        Ending::Value => "a value",
        Ending::Spent => "stopped here, where the fuel ended",
        Ending::Deep => "stopped here, more than 2,000 deep",
        Ending::Range => "stopped here, at a value outside the range",
        Ending::Below => "stopped here, at a position below 0",
        Ending::Above => "stopped here, at a position past the list's end",
    }
}

fn print_place(
    rt: &HostRuntime,
    file: &str,
    text: &[u8],
    place: usize,
    why: &str,
) -> io::Result<()> {
    let line = line_at(text, place);
    println!(rt;
        "{file}, line {}, column {}: {why}",
        line.number, line.column
    )?;
    print_line(rt, text, line, place)
}

fn print_refused(rt: &HostRuntime, file: &str, text: &[u8], refusal: Refusal) -> io::Result<()> {
    let why = refused(refusal);
    match refusal {
        Refusal::Closed { .. } => print_place(rt, file, text, refusal.place(), why),
        Refusal::Needs { named } => println!(rt; "{file}: {why}: number {named}, counted from 0"),
        _ => println!(rt; "{file}: {why}"),
    }
}

// The numbers of the checks that are settled, which a run drops.
fn print_dropped(rt: &HostRuntime, obligations: &[Listed]) -> io::Result<()> {
    print!(rt; "settled, so dropped:")?;
    for (number, listed) in obligations.iter().enumerate() {
        if listed.settled && listed.duty != Duty::Guard {
            print!(rt; " {number}")?;
        }
    }
    println!(rt; "")
}

fn print_end(rt: &HostRuntime, file: &str, text: &[u8], rule: usize, end: End) -> io::Result<()> {
    match end.kind {
        Ending::Value => println!(rt; "{file}: rule {rule} gives {}", end.value),
        kind => print_place(rt, file, text, end.place, stopped(kind)),
    }
}

// That every check made, the end is the same. The promise says that it is.
fn print_agreement(rt: &HostRuntime, priced: &Priced) -> io::Result<()> {
    let (Ok(end), Ok(full)) = (priced.book.answer, priced.full.answer) else {
        return Ok(());
    };
    let same = end.kind == full.kind
        && end.value == full.value
        && end.place == full.place
        && end.steps == full.steps
        && priced.book.cells.as_slice() == priced.full.cells.as_slice();
    println!(rt; "{} steps, {} checks made", end.steps, end.checks)?;
    print_dropped(rt, priced.obligations.as_slice())?;
    let word = if same { "the same" } else { "another end" };
    println!(rt; "with every check made, {} of them: {word}", full.checks)
}

// What came of pricing, in words.
pub(crate) fn print_priced(
    rt: &HostRuntime,
    file: &str,
    text: &[u8],
    priced: &Priced,
) -> io::Result<()> {
    match priced.book.answer {
        Err(refusal) => print_refused(rt, file, text, refusal),
        Ok(end) => {
            print_end(rt, file, text, priced.rule, end)?;
            print_cells(rt, priced.book.cells.as_slice())?;
            print_agreement(rt, priced)
        }
    }
}
