ghost use Rattle.std.specs.Prelude.{◌≡◌, Some, IfOk, string_bytes};
ghost use Rattle.notation.specs.Written.{terms_to, or_zero, row_text};

use crate::relation::Relation;
use crate::term::Term;
use rows::Row;
use std::alloc::{AllocError, Global};
use std::fmt;

// The terms of a row, in the order of their quantities, with a blank after each; none for a coefficient of 0.
#[derive(Clone, Copy)]
struct Terms<'a>(&'a Row);

impl fmt::Display for Terms<'_> {
    ghost output = { λ t. Some (terms_to t.0.now 16) };

    fn fmt<W: fmt::Write>(&self, f: &mut fmt::Formatter<W>) -> fmt::Result {
        for (j, c) in self.0.coefs().iter().enumerate() {
            if *c != 0 {
                let term = Term {
                    coef: *c,
                    quantity: j,
                };
                write!(f, "{term} ")?;
            }
        }
        Ok(())
    }
}

// The terms of a row, or 0 where it has none.
#[derive(Clone, Copy)]
struct Sum<'a>(&'a Row);

impl fmt::Display for Sum<'_> {
    ghost output = { λ s. Some (or_zero (terms_to s.0.now 16)) };

    fn fmt<W: fmt::Write>(&self, f: &mut fmt::Formatter<W>) -> fmt::Result {
        if self.0.coefs().iter().all(|c| *c == 0) {
            return f.write_str("0 ");
        }
        let terms = Terms(self.0);
        write!(f, "{terms}")
    }
}

// A row as it is written: its terms or 0, the relation, the bound.
#[derive(Clone, Copy)]
struct Written<'a>(&'a Row);

impl fmt::Display for Written<'_> {
    ghost output = { λ w. Some (row_text w.0.now) };

    fn fmt<W: fmt::Write>(&self, f: &mut fmt::Formatter<W>) -> fmt::Result {
        let sum = Sum(self.0);
        let relation = Relation(self.0.kind());
        let bound = self.0.bound();
        write!(f, "{sum}{relation} {bound}")
    }
}

// The row as it is written.
pub fn row_text(heap: Global, row: &Row) -> Result<String, AllocError>
    ensures { IfOk result (λ s. string_bytes s ≡ row_text row.now) }
{
    Written(row).to_string(heap)
}
