ghost use Rattle.std.specs.Prelude.{◌≡◌};
ghost use Rattle.letters.specs.Misspellings.{place_of};

use crate::cutting::MOST_OPEN;
use thiserror::Error;

// Why a text is not cut into tokens, with the byte where it fails.
#[derive(Clone, Copy, Debug, PartialEq, Eq, Error)]
pub enum Misspelt {
    // The text is longer than any text may be.
    #[error("the text is longer than 16,384 bytes")]
    Length,
    // No token begins here, or one that is too long.
    #[error("no token begins at byte {0}, or one that is too long")]
    Letter(usize),
    // A bracket opens here, and as many as may be are open.
    #[error("{max} brackets are open before byte {0}, and no more may be", max = MOST_OPEN)]
    Brackets(usize),
}

impl Misspelt {
    // The byte where it fails; 0 for a text that is too long, as its refusal has a place.
    pub fn place(self) -> usize
        ensures { result ≡ place_of self }
    {
        match self {
            Misspelt::Length => 0,
            Misspelt::Letter(place) | Misspelt::Brackets(place) => place,
        }
    }
}
