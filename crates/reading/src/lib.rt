// Reading a sheet: range, letters, grammar, names, counts and the walk, in this order.
#![tactic(auto)]

mod sizes;
mod stages;

pub use sizes::Sizes;
pub use stages::{LEAST_RECORDS, read};
