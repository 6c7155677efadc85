// What a run is given, tested before it: the values for a rule's names, what is in range, and the needs, over the records that a sheet lies in.
#![tactic(auto)]

pub mod allowing;
pub mod conditions;
pub mod entry;
pub mod gathering;
mod slots;

pub use allowing::allowed;
pub use conditions::first_broken;
pub use entry::enter;
pub use gathering::gather;
