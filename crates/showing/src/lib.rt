// Showing: a place of a text for people to see, and what the grammar would have taken there.
#![tactic(auto)]

pub mod kinds;
mod line;
mod marks;
mod probe;
mod probes;
mod words;

pub use kinds::{KIND_COUNT, KINDS, Kinds};
pub use line::{Line, line_at};
pub use marks::marked;
pub use probes::expected;
pub use words::kinds_text;
