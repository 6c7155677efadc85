// The engine: a sheet is tested, then taken as a draft, which says what the sheet owes and is settled, then cleared into a book.
#![tactic(auto)]

pub mod book;
pub mod draft;
mod guards;
pub mod lending;
pub mod listed;

pub use book::Book;
pub use draft::Draft;
pub use draft::making::{make, test};
pub use language::{Check, Duty, End, Ending, Part, Refusal};
pub use lending::room;
pub use listed::Listed;
pub use reading::LEAST_RECORDS;
pub use records::{Asked, Record};
