// Index domains: what decides that a goal follows from facts, by a certificate that nobody has to believe.
#![tactic(auto)]

pub mod domain;
pub mod fault;
pub mod linear;
pub mod modes;

pub use domain::{Domain, verified};
pub use fault::{Fault, Raise, Reason};
pub use linear::Linear;
pub use modes::Modes;
