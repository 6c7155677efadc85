// The desk: commands from standard input, one a line, each answered at once.
#![tactic(auto)]

mod answering;
mod by_hand;
mod calling;
mod commands;
mod explaining;
mod pictures;
mod pricing;
mod settling;
mod sheets;

use answering::{Desk, Then, answer_command, answer_over, answer_with, hear};
use by_hand::ByHand;
use engine::{Book, Draft, LEAST_RECORDS, Record, make, test};
use sheets::{Sheet, print_book, print_refusal, print_taken};
use std::io;
use std::io::{BufRead, BufReader, Split, Stdin};

// What is typed, a line at a time.
type Lines = Split<BufReader<Stdin>>;

// Answers lines where no draft is at hand, up to one that asks for a sheet: that sheet, or none at the end.
fn converse(rt: &HostRuntime, lines: &mut Lines, desk: &mut Desk) -> io::Result<Option<Sheet>> {
    for line in lines {
        let bytes = line?;
        let Some(command) = hear(rt, bytes.as_slice())? else {
            continue;
        };
        if let Then::Sheet(sheet) = answer_command(rt, desk, command)? {
            return Ok(Some(sheet));
        }
    }
    Ok(None)
}

// Answers lines over a draft, up to one that asks for another sheet or clears the draft, or to the end, which is no line more.
fn converse_over(
    rt: &HostRuntime,
    lines: &mut Lines,
    desk: &mut Desk,
    draft: &mut Draft<'_>,
) -> io::Result<Then> {
    for line in lines {
        let bytes = line?;
        let Some(command) = hear(rt, bytes.as_slice())? else {
            continue;
        };
        match answer_over(rt, desk, draft, command)? {
            Then::Line => {}
            then => return Ok(then),
        }
    }
    Ok(Then::Line)
}

// Answers lines over a book, up to one that asks for a sheet: that sheet, or none at the end.
fn converse_with(
    rt: &HostRuntime,
    lines: &mut Lines,
    desk: &mut Desk,
    book: &Book<'_>,
) -> io::Result<Option<Sheet>> {
    for line in lines {
        let bytes = line?;
        let Some(command) = hear(rt, bytes.as_slice())? else {
            continue;
        };
        if let Then::Sheet(sheet) = answer_with(rt, desk, book, command)? {
            return Ok(Some(sheet));
        }
    }
    Ok(None)
}

// Reads a sheet, says how, and answers lines over its draft, then over its book.
fn with_sheet(
    rt: &HostRuntime,
    lines: &mut Lines,
    desk: &mut Desk,
    records: &mut [Record],
    sheet: Sheet,
) -> io::Result<Option<Sheet>> {
    if let Err(refusal) = test(sheet.text.as_slice(), sheet.low, sheet.high, records) {
        print_refusal(rt, refusal)?;
        return converse(rt, lines, desk);
    }
    let mut draft = make(sheet.text.as_slice(), sheet.low, sheet.high, records);
    print_taken(rt, &draft)?;
    match converse_over(rt, lines, desk, &mut draft)? {
        Then::Line => Ok(None),
        Then::Sheet(next) => Ok(Some(next)),
        Then::Clear => {
            let book = draft.clear();
            print_book(rt, &book)?;
            converse_with(rt, lines, desk, &book)
        }
    }
}

fn run(rt: &HostRuntime) -> anyhow::Result<()> {
    let heap = rt.alloc();
    let mut desk = Desk {
        question: ByHand::new(heap),
        scratch: vec![in heap; Record::zero(); LEAST_RECORDS]?,
    };
    let mut records = vec![in heap; Record::zero(); LEAST_RECORDS]?;
    let mut lines = BufReader::new(heap, rt.stdin())?.split(heap, b'\n');
    let mut next = converse(rt, &mut lines, &mut desk)?;
    for _ in 0..u64::MAX {
        let Some(sheet) = next else {
            return Ok(());
        };
        next = with_sheet(rt, &mut lines, &mut desk, &mut records, sheet)?;
    }
    Ok(())
}

fn main(rt: HostRuntime) -> anyhow::Result<()> {
    run(&rt)
}
