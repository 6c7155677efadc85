ghost use Rattle.engine.specs.Lending.{Even};

use rows::{Kind, MOST_FACTS, QUANTITIES, Row};

// Room for the facts of a question, to be lent; it holds rows that say nothing, 0 <= 0.
pub fn room() -> [Row; MOST_FACTS]
    ensures { Even result }
{
    [Row::new([0; QUANTITIES], 0, Kind::AtMost).unwrap(); MOST_FACTS]
}
