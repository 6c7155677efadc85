// Letters: a text cut into tokens, the longest at each place.
#![tactic(auto)]

pub mod cutting;
pub mod kind;
pub mod misspelt;
pub mod token;

pub use cutting::{MOST_BYTES, MOST_DIGITS, MOST_LETTERS, MOST_OPEN, cut};
pub use kind::{KEYWORDS, Kind};
pub use misspelt::Misspelt;
pub use token::{Token, same_name};
