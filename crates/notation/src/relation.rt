ghost use Rattle.std.specs.Prelude.{Some};
ghost use Rattle.notation.specs.Written.{relation};

use crate::misread::Misread;
use rows::Kind;
use std::fmt;
use std::str::FromStr;

// How the kind of a row is written, between its terms and its bound.
#[derive(Clone, Copy)]
pub(crate) struct Relation(pub(crate) Kind);

impl fmt::Display for Relation {
    ghost output = { λ r. Some (relation r.0) };

    fn fmt<W: fmt::Write>(&self, f: &mut fmt::Formatter<W>) -> fmt::Result {
        f.write_str(match self.0 {
            Kind::AtMost => "<=",
            Kind::Unequal => "!=",
        })
    }
}

impl FromStr for Relation {
    type Err = Misread;

    fn from_str(word: &str) -> Result<Relation, Misread> {
        match word {
            "<=" => Ok(Relation(Kind::AtMost)),
            "!=" => Ok(Relation(Kind::Unequal)),
            _ => Err(Misread::Relation),
        }
    }
}
