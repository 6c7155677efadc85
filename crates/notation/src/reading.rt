ghost use Rattle.std.specs.Prelude.{◌≡◌, IfOk};
ghost use Rattle.notation.specs.Written.{row_text};

use crate::misread::Misread;
use crate::relation::Relation;
use crate::term::Term;
use crate::writing::row_text;
use rows::{QUANTITIES, Row};
use std::alloc::Global;

fn read_terms(text: &str) -> Result<[i32; QUANTITIES], Misread> {
    let mut coefs = [0; QUANTITIES];
    if text == "0" {
        return Ok(coefs);
    }
    for word in text.split(' ') {
        let term = word.parse::<Term>()?;
        coefs[term.quantity] = term.coef;
    }
    Ok(coefs)
}

// Some row that the text may write.
fn guess_row(text: &str) -> Result<Row, Misread> {
    let (front, number) = text.rsplit_once(' ').ok_or(Misread::Short)?;
    let (terms, relation) = front.rsplit_once(' ').ok_or(Misread::Short)?;
    let Relation(kind) = relation.parse()?;
    let bound = number.parse::<i32>().map_err(|_| Misread::Bound)?;
    let coefs = read_terms(terms)?;
    Row::new(coefs, bound, kind).ok_or(Misread::Limits)
}

// The row that a text writes; there is one text for each row. `read_value` would say only that there is none, and not what is misread.
pub fn read_row(heap: Global, text: &str) -> Result<Row, Misread>
    ensures { IfOk result (λ row. text.now ≡ row_text row) }
{
    let row = guess_row(text)?;
    let written = row_text(heap, &row)?;
    if written.as_str() != text {
        return Err(Misread::Form);
    }
    Ok(row)
}
