ghost use Rattle.std.specs.Prelude.{◌<◌, Some};
ghost use Rattle.notation.specs.Written.{term_word};

use crate::misread::Misread;
use rows::QUANTITIES;
use std::fmt;
use std::str::FromStr;

// A coefficient and its quantity.
#[derive(Clone, Copy)]
pub(crate) struct Term {
    pub coef: i32,
    pub quantity: usize,
    ghost below: { quantity < 16 },
}

impl fmt::Display for Term {
    ghost output = { λ t. Some (term_word t.coef t.quantity) };

    fn fmt<W: fmt::Write>(&self, f: &mut fmt::Formatter<W>) -> fmt::Result {
        let coef = self.coef;
        let quantity = self.quantity;
        write!(f, "{coef}*q{quantity}")
    }
}

impl FromStr for Term {
    type Err = Misread;

    fn from_str(word: &str) -> Result<Term, Misread> {
        let (number, name) = word.split_once("*q").ok_or(Misread::Term)?;
        let coef = number.parse::<i32>().map_err(|_| Misread::Limits)?;
        let quantity = name.parse::<usize>().map_err(|_| Misread::Quantity)?;
        if quantity >= QUANTITIES {
            return Err(Misread::Quantity);
        }
        Ok(Term { coef, quantity })
    }
}
