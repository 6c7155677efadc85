ghost use Rattle.std.specs.Prelude.{◌≡◌, Some};
ghost use Rattle.language.specs.Vocabulary.{operator_word};

use std::fmt;

#[derive(Clone, Copy, Debug, PartialEq, Eq)]
pub enum Operator {
    Sum,
    Difference,
    Product,
}

impl Operator {
    pub fn word(self) -> &'static str
        ensures { result.now ≡ operator_word self }
    {
        match self {
            Operator::Sum => "+",
            Operator::Difference => "-",
            Operator::Product => "*",
        }
    }
}

impl fmt::Display for Operator {
    ghost output = { λ operator. Some (operator_word operator) };

    fn fmt<W: fmt::Write>(&self, f: &mut fmt::Formatter<W>) -> fmt::Result {
        f.write_str(self.word())
    }
}
