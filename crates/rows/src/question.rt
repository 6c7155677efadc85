ghost use Rattle.std.specs.Prelude.{◌≡◌};
ghost use Rattle.rows.specs.Questions.{well_shaped};

use crate::row::{Kind, Row};

// A question with more facts is ill-shaped.
pub const MOST_FACTS: usize = 24;

// No multiplier of a row is larger, proposed or verified.
pub const MOST_TIMES: u32 = 1_000_000;

// Does every assignment in some range that meets the facts meet the goal?
#[derive(Clone, Copy, Debug, PartialEq, Eq)]
pub struct Question<'a> {
    pub facts: &'a [Row],
    pub goal: &'a Row,
}

impl Question<'_> {
    // No more than 24 facts, and a goal of kind at most.
    pub fn well_shaped(self) -> bool
        ensures { result ≡ well_shaped self.entry.facts.now self.entry.goal.now }
    {
        self.facts.len() <= MOST_FACTS && self.goal.kind() == Kind::AtMost
    }
}
