ghost use Rattle.std.specs.Prelude.{◌≡◌, ◌+◌, ◌<◌, ◌≤◌, length, drop, IfOk, ◌==◌, slice_index};
ghost use Rattle.std.specs.Str.Parse.{digits_value};
ghost use Rattle.std.specs.List.{prefix_len};
ghost use Rattle.letters.specs.Bytes.{EachDigit, is_digit, is_letter};
ghost use Rattle.letters.specs.Cuts.{sign_of, open_after, word_at, numeral_at, sign_at, piece_of, cut_of, answer, laid};
ghost use Rattle.letters.specs.Spelling.{Told, Bracketed};

use crate::kind::Kind;
use crate::misspelt::Misspelt;
use crate::token::Token;

// No text is longer.
pub const MOST_BYTES: usize = 16_384;

// No name is longer.
pub const MOST_LETTERS: usize = 16;

// No numeral is longer.
pub const MOST_DIGITS: usize = 6;

// No more brackets, of both sorts together, are open at once.
pub const MOST_OPEN: usize = 64;

// How many letters stand at the front. Letters and digits have a function each: one for both would take the test as a closure, with a clause on each of its answers and a proof by hand that does not close, where these need none.
fn letters_ahead(bytes: &[u8]) -> usize
    ensures told { result ≡ prefix_len is_letter bytes.now }
    ensures within { result ≤ length bytes.now }
{
    bytes
        .iter()
        .take_while(|byte| matches!(**byte as char, 'a'..='z' | '_'))
        .count()
}

// How many digits stand at the front.
fn digits_ahead(bytes: &[u8]) -> usize
    ensures told { result ≡ prefix_len is_digit bytes.now }
    ensures within { result ≤ length bytes.now }
{
    bytes
        .iter()
        .take_while(|byte| matches!(**byte as char, '0'..='9'))
        .count()
}

// The number that digits write. A `for`: no bound of the number so far is known at the step of a `fold`. And no `parse`, which wants a text: the bytes would be made one first, and both steps answer errors that digits never have.
fn decimal(digits: &[u8]) -> u32
    requires few { length digits.now ≤ 6 }
    requires all { EachDigit digits.now }
    ensures { result ≡ digits_value 10 digits.now }
{
    let mut number = 0;
    for digit in digits {
        number = number * 10 + u32::from(*digit - b'0');
    }
    number
}

// The sign that begins with a byte, if an equals sign follows or not.
fn sign_kind(byte: u8, equals: bool) -> Option<Kind>
    ensures { result ≡ sign_of byte equals }
{
    match byte as char {
        '<' if equals => Some(Kind::AtMost),
        '!' if equals => Some(Kind::Unequal),
        ':' if equals => Some(Kind::Becomes),
        '(' => Some(Kind::Open),
        ')' => Some(Kind::Close),
        '[' => Some(Kind::OpenSquare),
        ']' => Some(Kind::CloseSquare),
        ',' => Some(Kind::Comma),
        ';' => Some(Kind::Semicolon),
        '+' => Some(Kind::Plus),
        '-' => Some(Kind::Minus),
        '*' => Some(Kind::Times),
        '<' => Some(Kind::Less),
        '=' => Some(Kind::Equal),
        _ => None,
    }
}

// What is left of a text from a place on; something is.
#[derive(Clone, Copy)]
struct Ahead<'t> {
    rest: &'t [u8],
    place: usize,
    ghost some: { 0 < length rest.now },
}

impl Ahead<'_> {
    // The longest word at the front: a keyword or a name.
    fn word(self) -> Result<Token, Misspelt>
        ensures { result ≡ word_at self.entry.place self.entry.rest.now }
    {
        let size = letters_ahead(self.rest);
        if size > MOST_LETTERS {
            return Err(Misspelt::Letter(self.place));
        }
        Ok(Token {
            kind: Kind::of_word(&self.rest[..size]),
            place: self.place,
            size,
            value: 0,
        })
    }

    // The longest numeral there.
    fn numeral(self) -> Result<Token, Misspelt>
        ensures { result ≡ numeral_at self.entry.place self.entry.rest.now }
    {
        let size = digits_ahead(self.rest);
        if size > MOST_DIGITS {
            return Err(Misspelt::Letter(self.place));
        }
        Ok(Token {
            kind: Kind::Numeral,
            place: self.place,
            size,
            value: decimal(&self.rest[..size]),
        })
    }

    // The longest sign there.
    fn sign(self) -> Result<Token, Misspelt>
        ensures { result ≡ sign_at self.entry.place self.entry.rest.now }
    {
        let equals = self.rest.get(1) == Some(&b'=');
        let kind = sign_kind(self.rest[0], equals).ok_or(Misspelt::Letter(self.place))?;
        Ok(Token {
            kind,
            place: self.place,
            size: kind.word().len(),
            value: 0,
        })
    }

    // What stands there: a blank, which is no token, or the longest token.
    #[tactic(auto, unfolding(crate::specs::Cuts::piece_of))]
    fn piece(self) -> Result<Option<Token>, Misspelt>
        ensures { result ≡ piece_of self.entry.place self.entry.rest.now }
    {
        match self.rest[0] as char {
            ' ' | '\t' | '\n' | '\r' => Ok(None),
            'a'..='z' | '_' => self.word().map(Some),
            '0'..='9' => self.numeral().map(Some),
            _ => self.sign().map(Some),
        }
    }

    // How many brackets are open after the token there, given how many are before it.
    fn open_after(self, depth: usize) -> Result<usize, Misspelt>
        ensures { result ≡ open_after (slice_index self.entry.rest.now 0) depth self.entry.place }
    {
        match self.rest[0] as char {
            '(' | '[' if depth < MOST_OPEN => Ok(depth + 1),
            '(' | '[' => Err(Misspelt::Brackets(self.place)),
            ')' | ']' => Ok(depth.saturating_sub(1)),
            _ => Ok(depth),
        }
    }
}

// Cuts a text into tokens, writes them to the front and says how many they are. The array is the caller's, who wants it again after a refusal too, so the count stands beside it, and in no pile: `written` says what lies past the count, which a pile's contract does not. The place goes on by a token's size, and each token keeps it, so it is counted.
pub fn cut(text: &[u8], tokens: &mut [Token; MOST_BYTES]) -> Result<usize, Misspelt>
    ensures value { result ≡ answer (cut_of text.now) }
    ensures written { tokens.new ≡ laid (cut_of text.now).tokens tokens.old }
    ensures few { IfOk result (λ n. n ≤ 16384) }
    ensures brackets { Bracketed text.now result }
    ensures law { Told text.now result tokens.new }
{
    if text.len() > MOST_BYTES {
        return Err(Misspelt::Length);
    }
    let mut at = 0;
    let mut depth = 0;
    let mut count = 0;
    while at < text.len() {
        let ahead = Ahead {
            rest: &text[at..],
            place: at,
        };
        match ahead.piece()? {
            None => at += 1,
            Some(token) => {
                depth = ahead.open_after(depth)?;
                tokens[count] = token;
                count += 1;
                at += token.size;
            }
        }
    }
    Ok(count)
}
