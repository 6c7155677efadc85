// How rows and numbers are written in a line of text, and read from one.
#![tactic(auto)]

mod misread;
mod numerals;
mod reading;
mod relation;
mod term;
mod writing;

pub use misread::Misread;
pub use numerals::{read_numbers, read_u32, read_value};
pub use reading::read_row;
pub use writing::row_text;
