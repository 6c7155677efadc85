// A worked example of domains from outside: one that quotes a fact, and a layer that leaves facts away.
// It names `rows` and `domains` and nothing else; docs/ADDING_A_DOMAIN.md goes through it.
#![tactic(auto)]

mod first;
mod quote;

pub use first::First;
pub use quote::Quoted;
