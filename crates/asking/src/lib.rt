// A question put to a prover, and the proposal judged by a domain.
#![tactic(auto)]

pub mod asking;
pub mod certificate;
pub mod unproved;

pub use asking::ask_then_verify;
pub use certificate::linear_certificate;
pub use unproved::Unproved;
