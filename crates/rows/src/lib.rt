// Rows over sixteen quantities, and the questions that are made of them.
#![tactic(auto)]

pub mod question;
pub mod row;

pub use question::{MOST_FACTS, MOST_TIMES, Question};
pub use row::{Kind, QUANTITIES, ROW_LIMIT, Row};
