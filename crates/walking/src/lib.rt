// The walk: what a sheet owes, found over the tables that its tree lies in.
#![tactic(auto)]

mod conditions;
mod debts;
mod facts;
mod in_force;
mod quantities;
mod rules;
mod walker;

pub use rules::walk;
