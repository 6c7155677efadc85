// Provers: what proposes certificates that nobody has to believe.
#![tactic(auto)]

mod begin;
mod combine;
mod derived;
mod eliminate;
pub mod empty;
pub mod fourier;
mod numbers;
pub mod prover;
mod worklist;

pub use empty::Empty;
pub use fourier::FourierMotzkin;
pub use prover::{MOST_NUMBERS, Prover, offer};
