// The run: a rule's body over the records that its sheet lies in, with checks made or dropped.
#![tactic(auto)]

mod program;
mod rule;
mod runner;
mod slots;

pub use program::Program;
pub use rule::run_rule;
