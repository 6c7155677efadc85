ghost use Rattle.std.specs.Prelude.{◌≡◌, Some};
ghost use Rattle.language.specs.Vocabulary.{check_word, check_ending};

use crate::ending::Ending;
use std::fmt;

// A check of an index: that it is not below 0, that it is not above the last place.
#[derive(Clone, Copy, Debug, PartialEq, Eq)]
pub enum Check {
    Below,
    Above,
}

impl Check {
    pub fn word(self) -> &'static str
        ensures { result.now ≡ check_word self }
    {
        match self {
            Check::Below => "below",
            Check::Above => "above",
        }
    }

    // How a run ends where this check fails.
    pub fn ending(self) -> Ending
        ensures { result ≡ check_ending self }
    {
        match self {
            Check::Below => Ending::Below,
            Check::Above => Ending::Above,
        }
    }
}

impl fmt::Display for Check {
    ghost output = { λ check. Some (check_word check) };

    fn fmt<W: fmt::Write>(&self, f: &mut fmt::Formatter<W>) -> fmt::Result {
        f.write_str(self.word())
    }
}
