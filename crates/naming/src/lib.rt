// The names of a sheet: what they stand for, and the first that is at fault.
#![tactic(auto)]

mod calls;
pub mod condition;
mod condition_faults;
mod conditions;
mod declaring;
mod exprs;
pub mod head;
mod heads;
pub mod least;
mod reading;
mod rules;
pub mod scope;
mod scopes;
pub mod side;
mod sides;
pub mod taken;
pub mod written;

pub use condition::{Condition, Conditions};
pub use head::{Param, Params};
pub use least::earlier;
pub use scope::{LIST_ROOM, NAME_ROOM, Scope};
pub use side::{Items, Signed};
pub use taken::{Last, Ruled};
pub use written::Written;
