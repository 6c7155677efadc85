// The tree of a sheet in flat tables: nodes, conditions, items, parameters and rules, by position.
#![tactic(auto)]

pub mod asked;
pub mod condition;
pub mod counts;
pub mod entries;
pub mod entry;
pub mod laid;
pub mod node;
pub mod owed;
pub mod record;
pub mod stretch;
pub mod tabled;

pub use asked::{Asked, obligation, owed_at};
pub use condition::{Atom, Condition, Item};
pub use counts::Counts;
pub use entries::Entries;
pub use entry::{Entry, Param};
pub use laid::Laid;
pub use node::Node;
pub use owed::Owed;
pub use pile::Full;
pub use record::{Record, clear};
pub use stretch::Stretch;
pub use tabled::Tabled;
