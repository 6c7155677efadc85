use crate::pictures::{print_line, shown_text};
use crate::sheets::{Statement, state};
use domains::Linear;
use engine::{Check, Draft, Duty, Listed, Refusal, room};
use letters::{Kind as Sort, MOST_BYTES, Token, cut};
use provers::FourierMotzkin;
use rows::{Kind, Row};
use showing::line_at;
use std::alloc::{AllocError, Global};
use std::io;

// An obligation, what it says, and what came of settling it.
#[derive(Drop)]
pub(crate) struct Explained {
    listed: Listed,
    statement: Statement,
    answer: Result<(), Refusal>,
}

// The rule in which a place lies: its name, and the names of its numbers and lengths, which are its first quantities.
#[derive(Drop)]
struct Names {
    rule: Option<Token>,
    quantities: Vec<Token>,
}

// All that a draft owes, each settled where elimination finds a proof that the linear domain verifies.
pub(crate) fn explain_all(
    heap: Global,
    draft: &mut Draft<'_>,
) -> Result<Vec<Explained>, AllocError> {
    let mut all = Vec::new(heap);
    let mut lent = room();
    for number in 0..draft.owed() {
        let Ok(listed) = draft.obligation(number) else {
            return Ok(all);
        };
        let Ok(asked) = draft.question(number, &mut lent) else {
            return Ok(all);
        };
        let statement = state(heap, asked, &lent)?;
        let answer = draft.settle(number, &Linear, &FourierMotzkin);
        all.push(Explained {
            listed,
            statement,
            answer,
        })?;
    }
    Ok(all)
}

// Where the last rule up to a place begins.
fn rule_at(tokens: &[Token], place: usize) -> usize {
    let mut at = 0;
    for (k, token) in tokens.iter().enumerate() {
        if token.is(Sort::Rule) && token.place <= place {
            at = k;
        }
    }
    at
}

// The names of a head's numbers and lengths: a list's own name stands before a square bracket.
fn quantities(heap: Global, params: &[Token]) -> Result<Vec<Token>, AllocError> {
    let mut names = Vec::new(heap);
    for (token, next) in params.iter().zip(params.iter().skip(1)) {
        if token.is(Sort::Close) {
            return Ok(names);
        }
        if token.is(Sort::Name) && !next.is(Sort::OpenSquare) {
            names.push(*token)?;
        }
    }
    Ok(names)
}

fn names_at(heap: Global, tokens: &[Token], place: usize) -> Result<Names, AllocError> {
    let head = tokens.get(rule_at(tokens, place)..).unwrap_or(&[]);
    Ok(Names {
        rule: head.get(1).copied(),
        quantities: quantities(heap, head.get(3..).unwrap_or(&[]))?,
    })
}

// What stands at a place, and whether a rule is called there.
#[derive(Drop)]
struct Spot {
    word: String,
    call: bool,
}

fn spot_at(heap: Global, text: &[u8], tokens: &[Token], place: usize) -> Result<Spot, AllocError> {
    let count = tokens
        .iter()
        .take_while(|token| token.place < place)
        .count();
    let token = tokens.get(count).copied().unwrap_or(Token::end(place));
    let next = tokens.get(count + 1).copied().unwrap_or(Token::end(place));
    Ok(Spot {
        word: shown_text(heap, token.bytes(text))?,
        call: token.is(Sort::Name) && next.is(Sort::Open),
    })
}

// A quantity by its name in the sheet. Those past the rule's names are v1, v2 and so on: no name in a sheet has a digit.
fn push_quantity(
    heap: Global,
    into: &mut String,
    text: &[u8],
    names: &[Token],
    quantity: usize,
) -> Result<(), AllocError> {
    match names.get(quantity) {
        Some(token) => {
            let name = shown_text(heap, token.bytes(text))?;
            into.push_str(name.as_str())
        }
        None => {
            let number = quantity.saturating_sub(names.len()).saturating_add(1);
            write!(into, "v{number}")
        }
    }
}

fn push_joint(into: &mut String) -> Result<(), AllocError> {
    if into.is_empty() {
        Ok(())
    } else {
        into.push_str(" + ")
    }
}

// The terms of a row with this sign, and a number that is added where it is above 0; 0 where there is nothing.
fn side(
    heap: Global,
    text: &[u8],
    names: &[Token],
    row: &Row,
    sign: i64,
    added: i64,
) -> Result<String, AllocError> {
    let mut side = String::new(heap);
    for (quantity, coef) in row.coefs().iter().enumerate() {
        let times = i64::from(*coef).saturating_mul(sign);
        if times > 0 {
            push_joint(&mut side)?;
            if times > 1 {
                write!(&mut side, "{times}*")?;
            }
            push_quantity(heap, &mut side, text, names, quantity)?;
        }
    }
    if added > 0 || side.is_empty() {
        push_joint(&mut side)?;
        let added = added.max(0);
        write!(&mut side, "{added}")?;
    }
    Ok(side)
}

// Both sides of a row with what stands between them: what has a minus is brought to the other side.
fn said(
    heap: Global,
    text: &[u8],
    names: &[Token],
    row: &Row,
    relation: &str,
    bound: i64,
) -> Result<String, AllocError> {
    let left = side(heap, text, names, row, 1, 0_i64.saturating_sub(bound))?;
    let right = side(heap, text, names, row, -1, bound)?;
    format!(in heap; "{left} {relation} {right}")
}

// What a row says, in the names of the sheet.
fn sentence(heap: Global, text: &[u8], names: &[Token], row: &Row) -> Result<String, AllocError> {
    let bound = i64::from(row.bound());
    match row.kind() {
        Kind::AtMost if bound == -1 => said(heap, text, names, row, "<", 0),
        Kind::AtMost => said(heap, text, names, row, "<=", bound),
        Kind::Unequal => said(heap, text, names, row, "!=", bound),
    }
}

fn opposite(a: i32, b: i32) -> bool {
    i64::from(a) + i64::from(b) == 0
}

// Two rows say together that their sides are equal.
fn equates(a: &Row, b: &Row) -> bool {
    let at_most = a.kind() == Kind::AtMost && b.kind() == Kind::AtMost;
    at_most
        && opposite(a.bound(), b.bound())
        && a.coefs()
            .iter()
            .zip(b.coefs().iter())
            .all(|(c, d)| opposite(*c, *d))
}

// What is owed, in words. Whether a guard at a call is owed of its needs or of its value is not kept.
fn duty_text(heap: Global, duty: Duty, spot: &Spot) -> Result<String, AllocError> {
    let word = spot.word.as_str();
    match duty {
        Duty::Check(Check::Below) => format!(in heap; "a position in {word} is not below 0"),
        Duty::Check(Check::Above) => format!(in heap; "a position in {word} lies before its end"),
        Duty::Guard if spot.call => {
            format!(in heap; "what {word} needs, or what is promised of its value")
        }
        Duty::Guard => String::from_str(heap, "what is promised of this value"),
    }
}

// The facts, one a line; two that make an equation are said as one.
fn print_facts(rt: &HostRuntime, text: &[u8], names: &[Token], facts: &[Row]) -> io::Result<()> {
    let heap = rt.alloc();
    let mut lead = "known:    ";
    let mut paired = false;
    for (k, fact) in facts.iter().enumerate() {
        if paired {
            paired = false;
            continue;
        }
        paired = facts.get(k + 1).is_some_and(|next| equates(fact, next));
        let known = if paired {
            said(heap, text, names, fact, "=", i64::from(fact.bound()))?
        } else {
            sentence(heap, text, names, fact)?
        };
        println!(rt; "    {lead} {known}")?;
        lead = "          ";
    }
    Ok(())
}

fn print_one(
    rt: &HostRuntime,
    file: &str,
    text: &[u8],
    tokens: &[Token],
    number: usize,
    one: &Explained,
) -> io::Result<()> {
    let heap = rt.alloc();
    let place = one.listed.place;
    let names = names_at(heap, tokens, place)?;
    let rule = match names.rule {
        Some(token) => shown_text(heap, token.bytes(text))?,
        None => String::new(heap),
    };
    let spot = spot_at(heap, text, tokens, place)?;
    let duty = duty_text(heap, one.listed.duty, &spot)?;
    let line = line_at(text, place);
    let at = line.number;
    let column = line.column;
    println!(rt; "{number}: {file}, line {at}, column {column}, in the rule {rule}: {duty}")?;
    print_line(rt, text, line, place)?;
    let goal = sentence(heap, text, names.quantities.as_slice(), &one.statement.goal)?;
    println!(rt; "    must hold: {goal}")?;
    print_facts(
        rt,
        text,
        names.quantities.as_slice(),
        one.statement.facts.as_slice(),
    )?;
    print_settling(rt, one.answer)
}

// Whether an obligation is settled, or why it stays open.
fn print_settling(rt: &HostRuntime, answer: Result<(), Refusal>) -> io::Result<()> {
    match answer {
        Ok(()) => println!(rt;
            "    settled:   it follows from what is known: elimination proposed a proof, and the linear domain verified it"
        ),
        Err(Refusal::Unproved { fault: None, .. }) => println!(rt;
            "    open:      elimination proposes no proof that it follows from what is known"
        ),
        Err(
            Refusal::Unproved {
                fault: Some(fault),
                ..
            },
        ) => println!(rt;
            "    open:      the linear domain finds a fault in what elimination proposes: {fault}"
        ),
        Err(refusal) => println!(rt; "    open:      it was refused: {refusal}"),
    }
}

// How many statements a sheet owes.
fn print_heading(rt: &HostRuntime, file: &str, many: usize) -> io::Result<()> {
    match many {
        0 => return println!(rt; "{file} owes nothing"),
        1 => println!(rt;
            "{file} owes 1 statement, which must hold wherever all that is known there holds"
        )?,
        _ => println!(rt;
            "{file} owes {many} statements, each of which must hold wherever all that is known there holds"
        )?,
    }
    println!(rt;
        "v1, v2 and so on are values that a rule meets on its way there: read from a list, given by a rule or an as, chosen by an if, or not worked out"
    )
}

// What a sheet owes, for people.
pub(crate) fn print_explained(
    rt: &HostRuntime,
    file: &str,
    text: &[u8],
    owed: &[Explained],
) -> io::Result<()> {
    let mut tokens = [Token::end(0); MOST_BYTES];
    let count = cut(text, &mut tokens).unwrap_or(0);
    print_heading(rt, file, owed.len())?;
    for (number, one) in owed.iter().enumerate() {
        print_one(rt, file, text, &tokens[0..count], number, one)?;
    }
    Ok(())
}
