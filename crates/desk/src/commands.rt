use crate::calling::{Call, Checks, read_call};
use notation::{Misread, read_numbers, read_row, read_value};
use rows::Row;
use std::alloc::{AllocError, AllocFailed, Global};
use std::io;
use std::str::FromStr;
use thiserror::Error;

#[derive(Clone, Copy)]
pub enum DomainName {
    Linear,
    Modes,
}

#[derive(Clone, Copy)]
pub enum ProverName {
    FourierMotzkin,
    Empty,
}

impl FromStr for DomainName {
    type Err = Complaint;

    fn from_str(word: &str) -> Result<DomainName, Complaint> {
        match word {
            "linear" => Ok(DomainName::Linear),
            "modes" => Ok(DomainName::Modes),
            _ => Err(Complaint::Domain),
        }
    }
}

impl FromStr for ProverName {
    type Err = Complaint;

    fn from_str(word: &str) -> Result<ProverName, Complaint> {
        match word {
            "fm" => Ok(ProverName::FourierMotzkin),
            "empty" => Ok(ProverName::Empty),
            _ => Err(Complaint::Prover),
        }
    }
}

// Which obligations are to be settled.
#[derive(Clone, Copy)]
pub enum Which {
    All,
    One(usize),
}

// What a line asks for.
#[derive(Drop)]
pub enum Command {
    Help,
    QuestionNew,
    Fact(Row),
    Goal(Row),
    Verify {
        domain: DomainName,
        certificate: Vec<u32>,
    },
    Ask(ProverName),
    Sheet {
        file: String,
        low: i32,
        high: i32,
    },
    Obligations,
    Question(usize),
    Settle {
        which: Which,
        domain: DomainName,
        prover: ProverName,
    },
    Ready,
    Clear,
    Run(Call, Checks),
    Price {
        file: String,
        call: Call,
    },
    Check(String),
    Explain(String),
}

// Why a line is no command, or has no meaning where it stands.
#[derive(Debug, Drop, Error)]
pub enum Complaint {
    #[error("no such command: expected sheet, obligations, question, settle, ready, clear, run, full, check, explain, price, question-new, fact, goal, verify, ask or help")]
    Unknown,
    #[error("something stands after the command: expected the command alone")]
    Bare,
    #[error("no such domain: expected linear or modes")]
    Domain,
    #[error("no such prover: expected fm or empty")]
    Prover,
    #[error("the question has no goal yet: expected goal ROW first")]
    NoGoal,
    #[error("no draft is at hand: expected sheet FILE LOW HIGH first")]
    NoDraft,
    #[error("no book is at hand: expected clear first")]
    NoBook,
    #[error("a run is expected as RULE FUEL N .. / S:L .. / C ..: whole numbers in their shortest form")]
    NoCall,
    #[error("the number of an obligation is expected after question: decimal, no leading zero")]
    NoNumber,
    #[error("the number of an obligation, or all, is expected after settle, then a domain and a prover")]
    NoSettling,
    #[error("the line is no UTF-8 text: expected a command")]
    NoText,
    #[error("no file is named: expected sheet FILE LOW HIGH, check FILE, explain FILE or price FILE and a run")]
    NoFile,
    #[error("low and high are expected after the file, whole numbers from -2147483648 to 2147483647 in their shortest form")]
    Range,
    #[error("the file cannot be read: {0}; expected a file's name")]
    Unreadable(#[from] io::Error),
    #[error(transparent)]
    Misread(#[from] Misread),
}

// Both by hand: thiserror's `from` would make a variant of each, and both are told as a misreading.
impl From<AllocError> for Complaint {
    fn from(value: AllocError) -> Complaint {
        Complaint::Misread(Misread::from(value))
    }
}

impl<T: Drop> From<AllocFailed<T>> for Complaint {
    fn from(value: AllocFailed<T>) -> Complaint {
        Complaint::Misread(Misread::from(value))
    }
}

// A word, and what stands behind the blank after it.
fn first_word(line: &str) -> (&str, Option<&str>) {
    match line.split_once(' ') {
        Some((word, rest)) => (word, Some(rest)),
        None => (line, None),
    }
}

fn bare(command: Command, rest: Option<&str>) -> Result<Command, Complaint> {
    match rest {
        None => Ok(command),
        Some(_) => Err(Complaint::Bare),
    }
}

fn read_verify(heap: Global, rest: &str) -> Result<Command, Complaint> {
    let (name, numbers) = first_word(rest);
    let domain = name.parse::<DomainName>()?;
    let certificate = match numbers {
        Some(text) => read_numbers(heap, text)?,
        None => Vec::new(heap),
    };
    Ok(Command::Verify {
        domain,
        certificate,
    })
}

// A number of a range, in its one form.
fn read_bound(heap: Global, word: &str) -> Result<i32, Complaint> {
    read_value::<i32>(heap, word)?.ok_or(Complaint::Range)
}

// A file's name and a range; the name is all before the last two words.
fn read_sheet(heap: Global, rest: &str) -> Result<Command, Complaint> {
    if rest.is_empty() {
        return Err(Complaint::NoFile);
    }
    let (front, high) = rest.rsplit_once(' ').ok_or(Complaint::Range)?;
    let (file, low) = front.rsplit_once(' ').ok_or(Complaint::Range)?;
    let low = read_bound(heap, low)?;
    let high = read_bound(heap, high)?;
    let file = String::from_str(heap, file)?;
    Ok(Command::Sheet { file, low, high })
}

// A file's name, which may have blanks.
fn read_file(heap: Global, rest: &str) -> Result<String, Complaint> {
    if rest.is_empty() {
        return Err(Complaint::NoFile);
    }
    Ok(String::from_str(heap, rest)?)
}

// A file's name without blanks, and a run.
fn read_price(heap: Global, rest: &str) -> Result<Command, Complaint> {
    let (file, call) = rest.split_once(' ').ok_or(Complaint::NoFile)?;
    let file = read_file(heap, file)?;
    let call = read_call(heap, call)?;
    Ok(Command::Price { file, call })
}

fn read_question(heap: Global, rest: &str) -> Result<Command, Complaint> {
    let number = read_value::<usize>(heap, rest)?;
    Ok(Command::Question(number.ok_or(Complaint::NoNumber)?))
}

// All, or the number of an obligation in its one form.
fn read_which(heap: Global, word: &str) -> Result<Which, Complaint> {
    if word == "all" {
        return Ok(Which::All);
    }
    let number = read_value::<usize>(heap, word)?;
    Ok(Which::One(number.ok_or(Complaint::NoSettling)?))
}

fn read_settle(heap: Global, rest: &str) -> Result<Command, Complaint> {
    let (which, names) = rest.split_once(' ').ok_or(Complaint::NoSettling)?;
    let which = read_which(heap, which)?;
    let (domain, prover) = names.split_once(' ').ok_or(Complaint::NoSettling)?;
    Ok(Command::Settle {
        which,
        domain: domain.parse::<DomainName>()?,
        prover: prover.parse::<ProverName>()?,
    })
}

pub(crate) fn read_command(heap: Global, line: &str) -> Result<Command, Complaint> {
    let (word, after) = first_word(line);
    let rest = after.unwrap_or("");
    match word {
        "question-new" => bare(Command::QuestionNew, after),
        "help" => bare(Command::Help, after),
        "fact" => Ok(Command::Fact(read_row(heap, rest)?)),
        "goal" => Ok(Command::Goal(read_row(heap, rest)?)),
        "verify" => read_verify(heap, rest),
        "ask" => Ok(Command::Ask(rest.parse::<ProverName>()?)),
        "sheet" => read_sheet(heap, rest),
        "obligations" => bare(Command::Obligations, after),
        "question" => read_question(heap, rest),
        "settle" => read_settle(heap, rest),
        "ready" => bare(Command::Ready, after),
        "clear" => bare(Command::Clear, after),
        "run" => Ok(Command::Run(read_call(heap, rest)?, Checks::Open)),
        "full" => Ok(Command::Run(read_call(heap, rest)?, Checks::All)),
        "price" => read_price(heap, rest),
        "check" => Ok(Command::Check(read_file(heap, rest)?)),
        "explain" => Ok(Command::Explain(read_file(heap, rest)?)),
        _ => Err(Complaint::Unknown),
    }
}
