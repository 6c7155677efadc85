use crate::settling::Settling;
use engine::{Asked, Book, Draft, Listed, Refusal};
use letters::MOST_BYTES;
use notation::row_text;
use rows::Row;
use std::alloc::{AllocError, Global};
use std::fs::File;
use std::io;
use std::io::Read;

// A text with one byte more than this is refused by its length alone, so no more of a file is read.
const MOST_READ: u64 = MOST_BYTES as u64 + 1;

// A sheet that is to be read: its text, and a range.
#[derive(Drop)]
pub(crate) struct Sheet {
    pub text: Vec<u8>,
    pub low: i32,
    pub high: i32,
}

// What an obligation says: from these facts follows this goal.
#[derive(Drop)]
pub(crate) struct Statement {
    pub facts: Vec<Row>,
    pub goal: Row,
}

// The front of a file, as far as a reading looks.
pub(crate) fn read_front(rt: &HostRuntime, file: &str) -> io::Result<Vec<u8>> {
    let mut bytes = Vec::new(rt.alloc());
    let mut front = File::open(rt, file)?.take(MOST_READ);
    front.read_to_end(&mut bytes)?;
    Ok(bytes)
}

// What was asked, with its facts, which lie at the front of the room that was lent.
pub(crate) fn state(heap: Global, asked: Asked, lent: &[Row]) -> Result<Statement, AllocError> {
    Ok(Statement {
        facts: lent.iter().copied().take(asked.facts).collect(heap)?,
        goal: asked.goal,
    })
}

// All obligations, as they stand.
pub(crate) fn listing(heap: Global, draft: &Draft<'_>) -> Result<Vec<Listed>, AllocError> {
    let mut all = Vec::new(heap);
    for number in 0..draft.owed() {
        if let Ok(listed) = draft.obligation(number) {
            all.push(listed)?;
        }
    }
    Ok(all)
}

pub(crate) fn print_refusal(rt: &HostRuntime, refusal: Refusal) -> io::Result<()> {
    println!(rt;
        "refused {} {} place {} number {} reason {} depth {}",
        refusal.number(),
        refusal.word(),
        refusal.place(),
        refusal.named(),
        refusal.reason(),
        refusal.depth(),
    )
}

// How a sheet was taken, in the form for scripts.
pub(crate) fn print_taken(rt: &HostRuntime, draft: &Draft<'_>) -> io::Result<()> {
    let rules = draft.rules();
    let owed = draft.owed();
    println!(rt; "read: {rules} rules, {owed} obligations")
}

pub(crate) fn print_listing(rt: &HostRuntime, listing: &[Listed]) -> io::Result<()> {
    for (number, listed) in listing.iter().enumerate() {
        let duty = listed.duty;
        let place = listed.place;
        let state = if listed.settled { "settled" } else { "open" };
        println!(rt; "{number} {duty} at {place} {state}")?;
    }
    Ok(())
}

pub(crate) fn print_question(rt: &HostRuntime, statement: &Statement) -> io::Result<()> {
    let heap = rt.alloc();
    for fact in &statement.facts {
        let text = row_text(heap, fact)?;
        println!(rt; "fact {text}")?;
    }
    let text = row_text(heap, &statement.goal)?;
    println!(rt; "goal {text}")
}

// What came of settling each of these.
pub(crate) fn print_settlings(rt: &HostRuntime, settlings: &[Settling]) -> io::Result<()> {
    for settling in settlings {
        match settling.answer {
            Ok(()) => println!(rt; "settled {}", settling.number)?,
            Err(refusal) => print_refusal(rt, refusal)?,
        }
    }
    Ok(())
}

pub(crate) fn print_ready(rt: &HostRuntime, answer: Result<(), Refusal>) -> io::Result<()> {
    match answer {
        Ok(()) => println!(rt; "ready"),
        Err(refusal) => print_refusal(rt, refusal),
    }
}

pub(crate) fn print_book(rt: &HostRuntime, book: &Book<'_>) -> io::Result<()> {
    match book.closed() {
        None => println!(rt; "open"),
        Some(_) => println!(rt; "closed"),
    }
}
