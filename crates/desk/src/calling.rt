use crate::commands::Complaint;
use crate::sheets::print_refusal;
use engine::{Book, End, Part, Refusal};
use notation::read_value;
use std::alloc::{AllocError, Global};
use std::io;

// What a rule of a book is run on.
#[derive(Drop)]
pub struct Call {
    pub rule: usize,
    pub fuel: u32,
    pub numbers: Vec<i32>,
    pub parts: Vec<Part>,
    pub cells: Vec<i32>,
}

// How a run answered, and the cells after it.
#[derive(Drop)]
pub(crate) struct Ran {
    pub answer: Result<End, Refusal>,
    pub cells: Vec<i32>,
}

// Which checks a run makes: those that are not settled, or all.
#[derive(Clone, Copy)]
pub enum Checks {
    Open,
    All,
}

// What stands before the next word `/`, and what stands behind it.
fn section(text: &str) -> Option<(&str, &str)> {
    if text == "/" {
        return Some(("", ""));
    }
    if let Some(rest) = text.strip_prefix("/ ") {
        return (!rest.is_empty()).then_some(("", rest));
    }
    if let Some((front, rest)) = text.split_once(" / ") {
        return (!rest.is_empty()).then_some((front, rest));
    }
    Some((text.strip_suffix(" /")?, ""))
}

// Whole numbers, with a blank between each two; none where nothing stands.
fn read_each(heap: Global, text: &str) -> Result<Vec<i32>, Complaint> {
    let mut numbers = Vec::new(heap);
    if text.is_empty() {
        return Ok(numbers);
    }
    for word in text.split(' ') {
        let number = read_value::<i32>(heap, word)?;
        numbers.push(number.ok_or(Complaint::NoCall)?)?;
    }
    Ok(numbers)
}

// A part is written by where it starts and how long it is.
fn read_part(heap: Global, word: &str) -> Result<Part, Complaint> {
    let (start, length) = word.split_once(':').ok_or(Complaint::NoCall)?;
    let start = read_value::<u32>(heap, start)?.ok_or(Complaint::NoCall)?;
    let length = read_value::<u32>(heap, length)?.ok_or(Complaint::NoCall)?;
    Ok(Part { start, length })
}

fn read_parts(heap: Global, text: &str) -> Result<Vec<Part>, Complaint> {
    let mut parts = Vec::new(heap);
    if text.is_empty() {
        return Ok(parts);
    }
    for word in text.split(' ') {
        parts.push(read_part(heap, word)?)?;
    }
    Ok(parts)
}

// A rule, fuel, and then numbers, parts and cells, parted by `/`, any of them none.
pub(crate) fn read_call(heap: Global, text: &str) -> Result<Call, Complaint> {
    let (rule, rest) = text.split_once(' ').ok_or(Complaint::NoCall)?;
    let (fuel, rest) = rest.split_once(' ').ok_or(Complaint::NoCall)?;
    let (numbers, rest) = section(rest).ok_or(Complaint::NoCall)?;
    let (parts, cells) = section(rest).ok_or(Complaint::NoCall)?;
    Ok(Call {
        rule: read_value::<usize>(heap, rule)?.ok_or(Complaint::NoCall)?,
        fuel: read_value::<u32>(heap, fuel)?.ok_or(Complaint::NoCall)?,
        numbers: read_each(heap, numbers)?,
        parts: read_parts(heap, parts)?,
        cells: read_each(heap, cells)?,
    })
}

// Runs a rule of the book, over a copy of the cells that were typed.
pub(crate) fn run_call(
    heap: Global,
    book: &Book<'_>,
    call: &Call,
    checks: Checks,
) -> Result<Ran, AllocError> {
    let mut cells = call.cells.iter().copied().collect::<Vec<i32>>(heap)?;
    let answer = match checks {
        Checks::Open => book.run(call.rule, call.fuel, &call.numbers, &call.parts, &mut cells),
        Checks::All => book.full_run(call.rule, call.fuel, &call.numbers, &call.parts, &mut cells),
    };
    Ok(Ran { answer, cells })
}

pub(crate) fn print_cells(rt: &HostRuntime, cells: &[i32]) -> io::Result<()> {
    print!(rt; "cells")?;
    for cell in cells {
        print!(rt; " {cell}")?;
    }
    println!(rt; "")
}

// An end in the form for scripts, with the cells after it, or a refusal.
pub(crate) fn print_ran(rt: &HostRuntime, ran: &Ran) -> io::Result<()> {
    match ran.answer {
        Ok(
            End {
                kind,
                value,
                place,
                steps,
                checks,
            },
        ) => {
            println!(rt; "end {kind} value {value} place {place} steps {steps} checks {checks}")?;
            print_cells(rt, ran.cells.as_slice())
        }
        Err(refusal) => print_refusal(rt, refusal),
    }
}
