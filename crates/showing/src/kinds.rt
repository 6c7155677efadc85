ghost use Rattle.std.specs.Prelude.{◌≡◌, count_by};
ghost use Rattle.letters.specs.Every.{kinds};
ghost use Rattle.showing.specs.Kinds.{among};

use letters::Kind;

// How many kinds there are.
pub const KIND_COUNT: usize = 28;

// Every kind, in the order of their numbers.
pub const KINDS: [Kind; KIND_COUNT] = [
    Kind::Name,
    Kind::Numeral,
    Kind::End,
    Kind::Open,
    Kind::Close,
    Kind::OpenSquare,
    Kind::CloseSquare,
    Kind::Comma,
    Kind::Semicolon,
    Kind::Plus,
    Kind::Minus,
    Kind::Times,
    Kind::Less,
    Kind::AtMost,
    Kind::Equal,
    Kind::Unequal,
    Kind::Becomes,
    Kind::Rule,
    Kind::Needs,
    Kind::Gives,
    Kind::Let,
    Kind::In,
    Kind::If,
    Kind::Then,
    Kind::Else,
    Kind::Put,
    Kind::As,
    Kind::TheResult,
];

// Some of the kinds: a flag for each, by its number. There are so many kinds and no more, so the flags are an array, and no set on the heap; as the bits of one number they would be set and read by shifts.
#[derive(Clone, Copy, Debug, PartialEq, Eq)]
pub struct Kinds {
    pub flags: [bool; KIND_COUNT],
}

impl Kinds {
    pub fn has(self, kind: Kind) -> bool
        ensures { result ≡ among self kind }
    {
        self.flags[usize::from(kind.number())]
    }

    // How many kinds these are.
    pub fn count(self) -> usize
        ensures { result ≡ count_by (among self) kinds }
    {
        KINDS.iter().filter(|kind| self.has(**kind)).count()
    }
}
