// What a sheet may have, and the first place past that.
#![tactic(auto)]

mod fault;
mod heads;
pub mod placed;
mod search;

pub use fault::count_fault;
pub use placed::Placed;
pub use search::first_over;
