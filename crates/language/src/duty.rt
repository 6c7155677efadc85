ghost use Rattle.std.specs.Prelude.{◌≡◌, Some};
ghost use Rattle.language.specs.Vocabulary.{duty_word};

use crate::check::Check;
use std::fmt;

// What a sheet owes: a check of an index, or a guard, which a run never tests.
#[derive(Clone, Copy, Debug, PartialEq, Eq)]
pub enum Duty {
    Check(Check),
    Guard,
}

impl Duty {
    pub fn word(self) -> &'static str
        ensures { result.now ≡ duty_word self }
    {
        match self {
            Duty::Check(check) => check.word(),
            Duty::Guard => "guard",
        }
    }
}

impl fmt::Display for Duty {
    ghost output = { λ duty. Some (duty_word duty) };

    fn fmt<W: fmt::Write>(&self, f: &mut fmt::Formatter<W>) -> fmt::Result {
        f.write_str(self.word())
    }
}
