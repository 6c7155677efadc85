use crate::by_hand::ByHand;
use crate::calling::{Call, Ran, print_ran, run_call};
use crate::commands::{Command, Complaint, DomainName, ProverName, read_command};
use crate::explaining::{Explained, explain_all, print_explained};
use crate::pictures::print_check;
use crate::pricing::{Priced, price, print_priced};
use crate::settling::{Settling, settle};
use crate::sheets::{
    Sheet, Statement, listing, print_listing, print_question, print_ready, print_refusal,
    print_settlings, read_front, state,
};
use arrayvec::ArrayVec;
use asking::linear_certificate;
use domains::{Fault, Linear, Modes, verified};
use engine::{Book, Draft, Listed, Record, Refusal, make, room, test};
use provers::{Empty, MOST_NUMBERS, Prover};
use std::alloc::Global;
use std::io;
use std::str::from_utf8;

const HELP: &'static str = "commands, one a line, words separated by single blanks:
  check FILE               read the sheet in a file, and show where it is refused
  explain FILE             show what the sheet in a file owes, in its own names, and what is settled of it
  price FILE RULE FUEL N .. / S:L .. / C ..   settle the sheet in a file, run a rule of it, and say what came out
  sheet FILE LOW HIGH      read the sheet in a file for numbers from LOW to HIGH
  obligations              list what the sheet owes
  question K               show the facts and the goal of obligation K
  settle K DOMAIN PROVER   ask a prover about obligation K, and settle it if the domain finds that good
  settle all DOMAIN PROVER the same for each obligation in turn
  ready                    say whether every guard is settled
  clear                    make a book of the sheet, open or closed
  run RULE FUEL N .. / S:L .. / C ..   run a rule of the book: numbers, list parts by start and length, cells
  full RULE FUEL N .. / S:L .. / C ..  the same, but every check is made
  question-new             begin a new question
  fact ROW                 add a fact to the question
  goal ROW                 set the question's goal
  verify DOMAIN N N ..     ask a domain whether the certificate is good
  ask PROVER               ask a prover for a certificate
  help                     this text
LOW is at most 0 and HIGH at least 0, from -2147483648 to 2147483647
ROW is as in '-1*q0 2*q3 <= 5', '1*q0 != 3' or '0 <= -1'; DOMAIN is linear or modes, PROVER fm or empty
a line that is empty or begins with # is passed over";

// What a command answers, beside what it changes.
#[derive(Drop)]
enum Answer {
    Silence,
    Help,
    Outcome(Result<(), Fault>),
    // In fixed memory, since asking allocates nothing.
    Proposal(Option<ArrayVec<u32, MOST_NUMBERS>>),
    Listing(Vec<Listed>),
    Question(Statement),
    Refused(Refusal),
    Settled(Vec<Settling>),
    Ready(Result<(), Refusal>),
    Ran(Ran),
    Check {
        file: String,
        text: Vec<u8>,
        read: Result<usize, Refusal>,
    },
    Explained {
        file: String,
        text: Vec<u8>,
        owed: Vec<Explained>,
    },
    Priced {
        file: String,
        text: Vec<u8>,
        priced: Priced,
    },
}

// What the desk has at hand: the question by hand, and records to try sheets in.
#[derive(Drop)]
pub(crate) struct Desk {
    pub question: ByHand,
    pub scratch: Vec<Record>,
}

// What follows a line: the next, a sheet in place of what is at hand, or the book of the draft.
#[derive(Drop)]
pub(crate) enum Then {
    Line,
    Sheet(Sheet),
    Clear,
}

// A match of two arms: a `dyn` value would be picked by the same match.
fn verify(question: &ByHand, domain: DomainName, certificate: &[u32]) -> Result<Answer, Complaint> {
    let asked = question.asked().ok_or(Complaint::NoGoal)?;
    Ok(Answer::Outcome(match domain {
        DomainName::Linear => verified(&Linear, asked, certificate),
        DomainName::Modes => verified(&Modes, asked, certificate),
    }))
}

// A match of two arms: a `dyn` value would be picked by the same match, and what `linear_certificate` promises would be lost.
fn ask(question: &ByHand, prover: ProverName) -> Result<Answer, Complaint> {
    let asked = question.asked().ok_or(Complaint::NoGoal)?;
    let mut buffer = [0u32; MOST_NUMBERS];
    let count = match prover {
        ProverName::FourierMotzkin => linear_certificate(asked, &mut buffer),
        ProverName::Empty => Empty.ask(asked, &mut buffer),
    };
    let Some(count) = count else {
        return Ok(Answer::Proposal(None));
    };
    let mut numbers = ArrayVec::from(buffer);
    numbers.truncate(count);
    Ok(Answer::Proposal(Some(numbers)))
}

// The widest range: what it is makes no difference to the stages that a check shows.
fn check(rt: &HostRuntime, records: &mut [Record], file: String) -> Result<Answer, Complaint> {
    let text = read_front(rt, file.as_str())?;
    let read = match test(text.as_slice(), i32::MIN, i32::MAX, records) {
        Ok(()) => Ok(make(text.as_slice(), i32::MIN, i32::MAX, records).rules()),
        Err(refusal) => Err(refusal),
    };
    Ok(Answer::Check { file, text, read })
}

// The same range, since it is no part of what a sheet owes; what is settled in it is settled in any other.
fn explain(rt: &HostRuntime, records: &mut [Record], file: String) -> Result<Answer, Complaint> {
    let text = read_front(rt, file.as_str())?;
    if let Err(refusal) = test(text.as_slice(), i32::MIN, i32::MAX, records) {
        let read = Err(refusal);
        return Ok(Answer::Check { file, text, read });
    }
    let mut draft = make(text.as_slice(), i32::MIN, i32::MAX, records);
    let owed = explain_all(rt.alloc(), &mut draft)?;
    Ok(Answer::Explained { file, text, owed })
}

// Prices by a rule of the sheet in a file; where the sheet is refused, that is shown as a check shows it.
fn priced(
    rt: &HostRuntime,
    records: &mut [Record],
    file: String,
    call: &Call,
) -> Result<Answer, Complaint> {
    let text = read_front(rt, file.as_str())?;
    match price(rt.alloc(), text.as_slice(), records, call)? {
        Ok(priced) => Ok(Answer::Priced { file, text, priced }),
        Err(refusal) => {
            let read = Err(refusal);
            Ok(Answer::Check { file, text, read })
        }
    }
}

// The obligation of the draft with a number.
fn question(heap: Global, draft: &Draft<'_>, number: usize) -> Result<Answer, Complaint> {
    let mut lent = room();
    match draft.question(number, &mut lent) {
        Ok(asked) => Ok(Answer::Question(state(heap, asked, &lent)?)),
        Err(refusal) => Ok(Answer::Refused(refusal)),
    }
}

// Answers what needs no draft.
fn obey(rt: &HostRuntime, desk: &mut Desk, command: Command) -> Result<Answer, Complaint> {
    let by_hand = &mut desk.question;
    match command {
        Command::Help => Ok(Answer::Help),
        Command::QuestionNew => {
            by_hand.begin_again();
            Ok(Answer::Silence)
        }
        Command::Fact(row) => {
            by_hand.add_fact(row)?;
            Ok(Answer::Silence)
        }
        Command::Goal(row) => {
            by_hand.set_goal(row);
            Ok(Answer::Silence)
        }
        Command::Verify {
            domain,
            certificate,
        } => verify(by_hand, domain, certificate.as_slice()),
        Command::Ask(prover) => ask(by_hand, prover),
        Command::Check(file) => check(rt, &mut desk.scratch, file),
        Command::Explain(file) => explain(rt, &mut desk.scratch, file),
        Command::Price { file, call } => priced(rt, &mut desk.scratch, file, &call),
        Command::Obligations
        | Command::Question(_)
        | Command::Settle { .. }
        | Command::Ready
        | Command::Clear
        | Command::Sheet { .. } => Err(Complaint::NoDraft),
        Command::Run(..) => Err(Complaint::NoBook),
    }
}

// Answers over a draft.
fn obey_over(
    rt: &HostRuntime,
    desk: &mut Desk,
    draft: &mut Draft<'_>,
    command: Command,
) -> Result<Answer, Complaint> {
    let heap = rt.alloc();
    match command {
        Command::Obligations => Ok(Answer::Listing(listing(heap, draft)?)),
        Command::Question(number) => question(heap, draft, number),
        Command::Settle {
            which,
            domain,
            prover,
        } => Ok(Answer::Settled(settle(heap, draft, which, domain, prover)?)),
        Command::Ready => Ok(Answer::Ready(draft.ready())),
        other => obey(rt, desk, other),
    }
}

// Answers over a book.
fn obey_with(
    rt: &HostRuntime,
    desk: &mut Desk,
    book: &Book<'_>,
    command: Command,
) -> Result<Answer, Complaint> {
    match command {
        Command::Run(call, checks) => Ok(Answer::Ran(run_call(rt.alloc(), book, &call, checks)?)),
        other => obey(rt, desk, other),
    }
}

fn print_outcome(rt: &HostRuntime, outcome: Result<(), Fault>) -> io::Result<()> {
    match outcome {
        Ok(()) => println!(rt; "good"),
        Err(fault) => println!(rt; "fault {fault}"),
    }
}

fn print_proposal(rt: &HostRuntime, proposal: Option<&[u32]>) -> io::Result<()> {
    let Some(numbers) = proposal else {
        return println!(rt; "none");
    };
    print!(rt; "proposal")?;
    for n in numbers {
        print!(rt; " {n}")?;
    }
    println!(rt; "")
}

fn print_answer(rt: &HostRuntime, answer: Result<Answer, Complaint>) -> io::Result<()> {
    match answer {
        Ok(Answer::Silence) => Ok(()),
        Ok(Answer::Help) => println!(rt; "{HELP}"),
        Ok(Answer::Outcome(outcome)) => print_outcome(rt, outcome),
        Ok(Answer::Proposal(None)) => print_proposal(rt, None),
        Ok(Answer::Proposal(Some(numbers))) => print_proposal(rt, Some(numbers.as_slice())),
        Ok(Answer::Listing(all)) => print_listing(rt, all.as_slice()),
        Ok(Answer::Question(asked)) => print_question(rt, &asked),
        Ok(Answer::Refused(refusal)) => print_refusal(rt, refusal),
        Ok(Answer::Settled(settlings)) => print_settlings(rt, settlings.as_slice()),
        Ok(Answer::Ready(answer)) => print_ready(rt, answer),
        Ok(Answer::Ran(ran)) => print_ran(rt, &ran),
        Ok(Answer::Check { file, text, read }) => print_check(
            rt,
            file.as_str(),
            text.as_slice(),
            read,
        ),
        Ok(Answer::Explained { file, text, owed }) => print_explained(
            rt,
            file.as_str(),
            text.as_slice(),
            owed.as_slice(),
        ),
        Ok(Answer::Priced { file, text, priced }) => print_priced(
            rt,
            file.as_str(),
            text.as_slice(),
            &priced,
        ),
        Err(complaint) => println!(rt; "error: {complaint}"),
    }
}

// The sheet that is asked for, if it can be read from its file.
fn open(rt: &HostRuntime, file: &str, low: i32, high: i32) -> Result<Sheet, Complaint> {
    let text = read_front(rt, file)?;
    Ok(Sheet { text, low, high })
}

fn answer_open(rt: &HostRuntime, file: &str, low: i32, high: i32) -> io::Result<Then> {
    match open(rt, file, low, high) {
        Ok(sheet) => Ok(Then::Sheet(sheet)),
        Err(complaint) => {
            print_answer(rt, Err(complaint))?;
            Ok(Then::Line)
        }
    }
}

// Answers a command where no draft is at hand.
pub(crate) fn answer_command(
    rt: &HostRuntime,
    desk: &mut Desk,
    command: Command,
) -> io::Result<Then> {
    if let Command::Sheet { file, low, high } = command {
        return answer_open(rt, file.as_str(), low, high);
    }
    let answer = obey(rt, desk, command);
    print_answer(rt, answer)?;
    Ok(Then::Line)
}

// Answers a command over a draft.
pub(crate) fn answer_over(
    rt: &HostRuntime,
    desk: &mut Desk,
    draft: &mut Draft<'_>,
    command: Command,
) -> io::Result<Then> {
    if let Command::Sheet { file, low, high } = command {
        return answer_open(rt, file.as_str(), low, high);
    }
    if let Command::Clear = command {
        return Ok(Then::Clear);
    }
    let answer = obey_over(rt, desk, draft, command);
    print_answer(rt, answer)?;
    Ok(Then::Line)
}

// Answers a command over a book.
pub(crate) fn answer_with(
    rt: &HostRuntime,
    desk: &mut Desk,
    book: &Book<'_>,
    command: Command,
) -> io::Result<Then> {
    if let Command::Sheet { file, low, high } = command {
        return answer_open(rt, file.as_str(), low, high);
    }
    let answer = obey_with(rt, desk, book, command);
    print_answer(rt, answer)?;
    Ok(Then::Line)
}

fn hear_text(rt: &HostRuntime, line: &str) -> io::Result<Option<Command>> {
    if line.is_empty() || line.starts_with('#') {
        return Ok(None);
    }
    println!(rt; "> {line}")?;
    match read_command(rt.alloc(), line) {
        Ok(command) => Ok(Some(command)),
        Err(complaint) => {
            print_answer(rt, Err(complaint))?;
            Ok(None)
        }
    }
}

// The command that a line is, which is written back; none where it is passed over or answered by an error. A carriage return before its end is not part of it.
pub(crate) fn hear(rt: &HostRuntime, bytes: &[u8]) -> io::Result<Option<Command>> {
    let Ok(text) = from_utf8(bytes) else {
        println!(rt; "> (not text)")?;
        print_answer(rt, Err(Complaint::NoText))?;
        return Ok(None);
    };
    hear_text(rt, text.strip_suffix('\r').unwrap_or(text))
}
