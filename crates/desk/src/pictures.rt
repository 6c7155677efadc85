use engine::Refusal;
use letters::{MOST_BYTES, Misspelt, Token, cut};
use showing::{Line, expected, kinds_text, line_at, marked};
use std::alloc::{AllocError, Global};
use std::io;

// How many bytes of a line are shown at most, and how many of them before the place.
const MOST_SHOWN: usize = 76;

const MOST_BEFORE: usize = 60;

// The token that begins at a place, if one does.
fn token_at(tokens: &[Token], place: usize) -> Option<Token> {
    tokens.iter().find(|token| token.place == place).copied()
}

// A byte as it is shown: what is no printable sign of ASCII, and no tab, as a question mark.
fn shown(byte: u8) -> char {
    match byte as char {
        '\t' => '\t',
        ' '..='~' => char::from(byte),
        _ => '?',
    }
}

pub(crate) fn shown_text(heap: Global, bytes: &[u8]) -> Result<String, AllocError> {
    bytes.iter().map(|byte| shown(*byte)).collect(heap)
}

fn quoted(heap: Global, bytes: &[u8]) -> Result<String, AllocError> {
    let text = shown_text(heap, bytes)?;
    format!(in heap; "\"{text}\"")
}

// What the grammar would have taken at a place, and what stands there.
fn grammar_sentence(heap: Global, text: &[u8], place: usize) -> Result<String, AllocError> {
    let mut tokens = [Token::end(0); MOST_BYTES];
    let count = cut(text, &mut tokens).unwrap_or(0);
    let found = match token_at(&tokens[0..count], place) {
        Some(token) => quoted(heap, token.bytes(text))?,
        None => String::from_str(heap, "the end of the text")?,
    };
    let mut nodes = vec![in heap; grammar::Node::Blank; count + 1]?;
    let mut scratch = vec![in heap; Token::end(0); count + 1]?;
    let wanted = match expected(&tokens[0..count], place, &mut nodes, &mut scratch) {
        Some(kinds) => kinds_text(heap, kinds)?,
        None => String::from_str(heap, "something else")?,
    };
    format!(in heap; "expected {wanted}, found {found}")
}

// Why no token begins at a place.
fn letter_sentence(text: &[u8], place: usize) -> &'static str {
    match text.get(place) {
        Some(b'a'..=b'z') | Some(b'_') => "a name or keyword has 16 letters at most",
        Some(b'0'..=b'9') => "a numeral has 6 digits at most",
        Some(b'!') => "! stands before = only, as in a != b",
        Some(b':') => ": stands before = only, as in put a[i] := v in w",
        Some(b'A'..=b'Z') => "names and keywords are written in small letters",
        _ => "no name, numeral or sign begins with this byte",
    }
}

// What a sheet has too many of.
fn full_sentence(text: &[u8]) -> &'static str {
    let mut tokens = [Token::end(0); MOST_BYTES];
    match cut(text, &mut tokens) {
        Err(Misspelt::Length) => "a sheet has 16,384 bytes at most",
        Err(Misspelt::Brackets(_)) => "64 brackets are open before this one, and no more may be",
        _ =>
            "here a sheet passes 32 rules, 4 lists, 8 numbers, 16 quantities or 24 facts in a rule, 1,024 expressions, 128 conditions or 128 obligations",
    }
}

fn sentence(heap: Global, text: &[u8], refusal: Refusal) -> Result<String, AllocError> {
    match refusal {
        Refusal::Grammar { place } => grammar_sentence(heap, text, place),
        Refusal::Letter { place } => String::from_str(heap, letter_sentence(text, place)),
        Refusal::Name { place: _ } => String::from_str(
            heap,
            "this name is unknown here, declared before, of the wrong sort (a list for a number, or the other way round), or called with a wrong number of arguments",
        ),
        Refusal::Full { place: _ } => String::from_str(heap, full_sentence(text)),
        Refusal::Large { place: _ } => String::from_str(
            heap,
            "a side that is compared here, taken whole, has a number outside -1,000,000 to 1,000,000",
        ),
        _ => String::from_str(heap, refusal.word()),
    }
}

// The line of a place and a mark under it; of a long line, what stands near the place.
pub(crate) fn print_line(
    rt: &HostRuntime,
    text: &[u8],
    line: Line,
    place: usize,
) -> io::Result<()> {
    let heap = rt.alloc();
    let start = line.start.max(place.saturating_sub(MOST_BEFORE));
    let end = line.end.min(start.saturating_add(MOST_SHOWN));
    let shown = shown_text(heap, text.get(start..end).unwrap_or(&[]))?;
    println!(rt; "    {shown}")?;
    let under = marked(
        heap,
        text.get(start..).unwrap_or(&[]),
        place.saturating_sub(start),
    )?;
    println!(rt; "    {under}^")
}

// A refusal in a sentence, and its place in the text. That of a text that is too long has none.
fn print_picture(rt: &HostRuntime, file: &str, text: &[u8], refusal: Refusal) -> io::Result<()> {
    let word = refusal.word();
    let why = sentence(rt.alloc(), text, refusal)?;
    if text.len() > MOST_BYTES {
        return println!(rt; "{file}: {word}: {why}");
    }
    let place = refusal.place();
    let line = line_at(text, place);
    let number = line.number;
    let column = line.column;
    println!(rt; "{file}, line {number}, column {column}: {word}: {why}")?;
    print_line(rt, text, line, place)
}

// How a sheet was read, for people. Never inlined: a sentence about a text has room for its tokens, half a mebibyte of stack, which each answer of the desk would pay for.
#[inline(never)]
pub(crate) fn print_check(
    rt: &HostRuntime,
    file: &str,
    text: &[u8],
    read: Result<usize, Refusal>,
) -> io::Result<()> {
    match read {
        Ok(1) => println!(rt; "{file} is a sheet of 1 rule"),
        Ok(rules) => println!(rt; "{file} is a sheet of {rules} rules"),
        Err(refusal) => print_picture(rt, file, text, refusal),
    }
}
