ghost use Rattle.std.specs.Prelude.{◌≡◌, [], ◌∷◌, ◌++◌, Some, None, OnOk, IfSome, IfNone};

use rows::{Question, Row};
use std::alloc::{AllocFailed, Global};

// The question that is typed in, a row at a time.
#[derive(Drop)]
pub struct ByHand {
    facts: Vec<Row>,
    goal: Option<Row>,
}

impl ByHand {
    pub fn new(heap: Global) -> ByHand
        ensures { (result.facts.items ≡ []) × (result.goal ≡ None) }
    {
        ByHand {
            facts: Vec::new(heap),
            goal: None,
        }
    }

    pub fn begin_again(&mut self)
        ensures { (self.new.facts.items ≡ []) × (self.new.goal ≡ None) }
    {
        self.facts.clear();
        self.goal = None;
    }

    pub fn add_fact(&mut self, row: Row) -> Result<(), AllocFailed<Row>>
        ensures { (OnOk result (self.new.facts.items ≡ self.old.facts.items ++ (row ∷ []))) × (self.new.goal ≡ self.old.goal) }
    {
        self.facts.push(row)
    }

    pub fn set_goal(&mut self, row: Row)
        ensures { (self.new.goal ≡ Some row) × (self.new.facts ≡ self.old.facts) }
    {
        self.goal = Some(row);
    }

    // The question, once it has a goal.
    pub fn asked(&self) -> Option<Question<'_>>
        ensures asked { IfSome result (λ asked. (asked.facts.now ≡ self.now.facts.items) × (Some asked.goal.now ≡ self.now.goal)) }
        ensures none { IfNone result (self.now.goal ≡ None) }
    {
        Some(Question {
            facts: self.facts.as_slice(),
            goal: self.goal.as_ref()?,
        })
    }
}
