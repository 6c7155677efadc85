ghost use Rattle.walking.specs.Knowing.{Fresh};

use language::{Refusal, Term};
use rows::QUANTITIES;
use terms::quantity;

// The next quantity, which is used up; the place is that of the refusal where there is none. It is a plain number, since every number may stand there: a type around it would keep nothing.
pub(crate) fn fresh(next: &mut usize, place: usize) -> Result<Term, Refusal>
    ensures { Fresh result place next.old next.new }
{
    let here = *next;
    if here >= QUANTITIES {
        return Err(Refusal::Full { place });
    }
    *next = here + 1;
    Ok(quantity(here))
}
