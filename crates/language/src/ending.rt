ghost use Rattle.std.specs.Prelude.{◌≡◌, Some};
ghost use Rattle.language.specs.Vocabulary.{ending_number, ending_word};

use std::fmt;

// How a run ends: with a value, or with a stop.
#[derive(Clone, Copy, Debug, PartialEq, Eq)]
pub enum Ending {
    Value = 0,
    Spent = 1,
    Deep = 2,
    Range = 3,
    Below = 4,
    Above = 5,
}

impl Ending {
    pub fn number(self) -> u8
        ensures { result ≡ ending_number self }
    {
        self as u8
    }

    pub fn word(self) -> &'static str
        ensures { result.now ≡ ending_word self }
    {
        match self {
            Ending::Value => "value",
            Ending::Spent => "spent",
            Ending::Deep => "deep",
            Ending::Range => "range",
            Ending::Below => "below",
            Ending::Above => "above",
        }
    }
}

impl fmt::Display for Ending {
    ghost output = { λ ending. Some (ending_word ending) };

    fn fmt<W: fmt::Write>(&self, f: &mut fmt::Formatter<W>) -> fmt::Result {
        f.write_str(self.word())
    }
}

// The end of a run: a value has place 0, a stop has value 0. It is shown in a line with 0 for what it does not give, so it is one struct.
#[derive(Clone, Copy, Debug, PartialEq, Eq)]
pub struct End {
    pub kind: Ending,
    pub value: i32,
    pub place: usize,
    // Units of fuel taken.
    pub steps: u32,
    // Checks made, a failed one too.
    pub checks: u32,
}
