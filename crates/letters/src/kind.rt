ghost use Rattle.std.specs.Prelude.{◌≡◌, Some, find};
ghost use Rattle.std.specs.Str.{bytes_eq};
ghost use Rattle.letters.specs.Kinds.{number, word, keyword_of};

use std::fmt;

// What a token is. A keyword is added at the end of the enum, of `KEYWORDS` and of `word`; the crate `showing` has a list of every kind, which takes it too.
#[derive(Clone, Copy, Debug, PartialEq, Eq)]
pub enum Kind {
    Name,
    Numeral,
    // What stands past the last token.
    End,
    Open,
    Close,
    OpenSquare,
    CloseSquare,
    Comma,
    Semicolon,
    Plus,
    Minus,
    Times,
    Less,
    AtMost,
    Equal,
    Unequal,
    Becomes,
    Rule,
    Needs,
    Gives,
    Let,
    In,
    If,
    Then,
    Else,
    Put,
    As,
    TheResult,
}

pub const KEYWORDS: [Kind; 11] = [
    Kind::Rule,
    Kind::Needs,
    Kind::Gives,
    Kind::Let,
    Kind::In,
    Kind::If,
    Kind::Then,
    Kind::Else,
    Kind::Put,
    Kind::As,
    Kind::TheResult,
];

impl Kind {
    pub fn number(self) -> u8
        ensures { result ≡ number self }
    {
        self as u8
    }

    // How a keyword or a sign is written: empty for a name, a numeral and the end.
    pub fn word(self) -> &'static str
        ensures { result.now ≡ word self }
    {
        match self {
            Kind::Name | Kind::Numeral | Kind::End => "",
            Kind::Open => "(",
            Kind::Close => ")",
            Kind::OpenSquare => "[",
            Kind::CloseSquare => "]",
            Kind::Comma => ",",
            Kind::Semicolon => ";",
            Kind::Plus => "+",
            Kind::Minus => "-",
            Kind::Times => "*",
            Kind::Less => "<",
            Kind::AtMost => "<=",
            Kind::Equal => "=",
            Kind::Unequal => "!=",
            Kind::Becomes => ":=",
            Kind::Rule => "rule",
            Kind::Needs => "needs",
            Kind::Gives => "gives",
            Kind::Let => "let",
            Kind::In => "in",
            Kind::If => "if",
            Kind::Then => "then",
            Kind::Else => "else",
            Kind::Put => "put",
            Kind::As => "as",
            Kind::TheResult => "result",
        }
    }

    // The keyword that is written so, or a name.
    pub fn of_word(letters: &[u8]) -> Kind
        ensures { result ≡ keyword_of letters.now }
    {
        written_so(letters, &KEYWORDS).unwrap_or(Kind::Name)
    }
}

// The first of these kinds that is written so.
fn written_so(letters: &[u8], kinds: &[Kind]) -> Option<Kind>
    ensures { result ≡ find (λ k. bytes_eq (word k) letters.now) kinds.now }
{
    kinds
        .iter()
        .copied()
        .find(|kind| kind.word().as_bytes() == letters)
}

impl fmt::Display for Kind {
    ghost output = { λ k. Some (word k) };

    fn fmt<W: fmt::Write>(&self, f: &mut fmt::Formatter<W>) -> fmt::Result {
        f.write_str(self.word())
    }
}
