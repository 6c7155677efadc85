// The arithmetic of terms, and the rows that compare them.
#![tactic(auto)]

mod arrays;
pub mod comparing;
mod numbers;
pub mod rowlist;
pub mod total;
mod wide;
pub mod working;

pub use comparing::{at_most, below, condition_rows, otherwise, rows, unequal};
pub use rowlist::{Rows, RowsLeft};
pub use total::{MOST_ITEMS, Total};
pub use working::{constant, fits, is_constant, quantity, worked};
