// The grammar: tokens into the tree of a sheet, which lies in flat nodes.
#![tactic(auto)]

mod descent;
mod flat;
mod misplaced;
pub mod node;
mod parser;
pub mod piece;
mod rules;
mod steps;
pub mod tokens;
pub mod unread;

pub use node::Node;
pub use piece::{ItemRead, ParamRead};
pub use rules::parse;
pub use tokens::Tokens;
pub use unread::Unread;
