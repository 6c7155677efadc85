// Names resolved: a sheet's written tree into the tables that it lies in.
#![tactic(auto)]

mod conditions;
mod context;
mod exprs;
mod heads;
mod lookups;
mod nodes;
mod rules;
mod signs;

pub use rules::resolve;
