use anyhow::Context;
use asking::linear_certificate;
use domains::{Fault, Linear, Modes, Reason, verified};
use notation::{read_numbers, read_row};
use provers::MOST_NUMBERS;
use rows::{Question, Row};
use std::alloc::Global;
use std::fmt;

// What a question is put to.
#[derive(Clone, Copy)]
pub enum Asked {
    Linear,
    Modes,
    FourierMotzkin,
}

impl fmt::Display for Asked {
    fn fmt<W: fmt::Write>(&self, f: &mut fmt::Formatter<W>) -> fmt::Result {
        f.write_str(match self {
            Asked::Linear => "linear",
            Asked::Modes => "modes",
            Asked::FourierMotzkin => "fm",
        })
    }
}

// What came: an outcome of a domain, or how many numbers a prover wrote.
#[derive(Clone, Copy, PartialEq)]
pub enum Got {
    Outcome(Result<(), Fault>),
    Proposal(Option<usize>),
}

impl fmt::Display for Got {
    fn fmt<W: fmt::Write>(&self, f: &mut fmt::Formatter<W>) -> fmt::Result {
        f.write_str(match self {
            Got::Outcome(Ok(())) => "good",
            Got::Outcome(Err(fault)) => fault.reason.word(),
            Got::Proposal(Some(_)) => "proposal",
            Got::Proposal(None) => "none",
        })
    }
}

const GOOD: Got = Got::Outcome(Ok(()));

const UNPROPOSED: Got = Got::Proposal(None);

// A question with a certificate, and the answer that must come; facts are separated by commas.
#[derive(Clone, Copy)]
pub struct Example {
    pub asked: Asked,
    pub facts: &'static str,
    pub goal: &'static str,
    pub certificate: &'static str,
    pub outcome: Got,
}

pub const EXAMPLES: [Example; 9] = [
    Example {
        asked: Asked::Linear,
        facts: "-1*q0 <= 0",
        goal: "-1*q0 <= 0",
        certificate: "1 1",
        outcome: GOOD,
    },
    Example {
        asked: Asked::Linear,
        facts: "-1*q0 <= 0",
        goal: "-1*q0 <= 0",
        certificate: "1 2",
        outcome: Got::Outcome(Err(Fault {
            reason: Reason::Sum,
            depth: 0,
        })),
    },
    Example {
        asked: Asked::Linear,
        facts: "-1*q0 <= 0",
        goal: "-1*q0 <= 0",
        certificate: "1",
        outcome: Got::Outcome(Err(Fault {
            reason: Reason::Shape,
            depth: 0,
        })),
    },
    Example {
        asked: Asked::Linear,
        facts: "-1*q0 <= 0",
        goal: "-1*q0 <= 0",
        certificate: "1000000 1000000",
        outcome: GOOD,
    },
    Example {
        asked: Asked::Linear,
        facts: "-1*q0 <= 0",
        goal: "-1*q0 <= 0",
        certificate: "1000001 1000001",
        outcome: Got::Outcome(Err(Fault {
            reason: Reason::Number,
            depth: 0,
        })),
    },
    Example {
        asked: Asked::Modes,
        facts: "2*q0 <= 1,-2*q0 <= -1",
        goal: "0 <= -1",
        certificate: "",
        outcome: GOOD,
    },
    Example {
        asked: Asked::Modes,
        facts: "",
        goal: "1*q0 <= 15",
        certificate: "",
        outcome: GOOD,
    },
    Example {
        asked: Asked::Modes,
        facts: "",
        goal: "1*q0 <= 14",
        certificate: "",
        outcome: Got::Outcome(Err(Fault {
            reason: Reason::Case,
            depth: 0,
        })),
    },
    Example {
        asked: Asked::FourierMotzkin,
        facts: "2*q0 <= 1,-2*q0 <= -1",
        goal: "0 <= -1",
        certificate: "",
        outcome: UNPROPOSED,
    },
];

fn rows_of(heap: Global, text: &str) -> anyhow::Result<Vec<Row>> {
    let mut rows = Vec::new(heap);
    if text.is_empty() {
        return Ok(rows);
    }
    for part in text.split(',') {
        rows.push(read_row(heap, part).context("an example's row is not written as a row")?)?;
    }
    Ok(rows)
}

fn numbers_of(heap: Global, text: &str) -> anyhow::Result<Vec<u32>> {
    if text.is_empty() {
        return Ok(Vec::new(heap));
    }
    read_numbers(heap, text).context("an example's certificate has something else than numbers")
}

// A match of three arms: a `dyn` value would be picked by the same match.
fn put(asked: Asked, question: Question<'_>, certificate: &[u32]) -> Got {
    match asked {
        Asked::Linear => Got::Outcome(verified(&Linear, question, certificate)),
        Asked::Modes => Got::Outcome(verified(&Modes, question, certificate)),
        Asked::FourierMotzkin => {
            let mut buffer = [0u32; MOST_NUMBERS];
            Got::Proposal(linear_certificate(question, &mut buffer))
        }
    }
}

pub(crate) fn answer_to(heap: Global, example: Example) -> anyhow::Result<Got> {
    let facts = rows_of(heap, example.facts)?;
    let goals = rows_of(heap, example.goal)?;
    let numbers = numbers_of(heap, example.certificate)?;
    let goal = goals.first().context("an example has no goal")?;
    let question = Question {
        facts: facts.as_slice(),
        goal,
    };
    Ok(put(example.asked, question, numbers.as_slice()))
}
