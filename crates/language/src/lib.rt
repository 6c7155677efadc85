// The language of sheets: its vocabulary, what a sheet owes, how it runs, and the promise that joins the two.
#![tactic(auto)]

pub mod check;
pub mod comparison;
pub mod duty;
pub mod ending;
pub mod limits;
pub mod operator;
pub mod part;
pub mod promise;
pub mod refusal;
pub mod term;

pub use check::Check;
pub use comparison::Comparison;
pub use duty::Duty;
pub use ending::{End, Ending};
pub use limits::{
    LONGEST_PART, MOST_DEPTH, MOST_FUEL, MOST_OBLIGATIONS, TERM_LIMIT, most_depth, term_limit,
};
pub use operator::Operator;
pub use part::Part;
pub use promise::is_guard;
pub use refusal::Refusal;
pub use term::Term;
