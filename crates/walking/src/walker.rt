use crate::debts::Debts;
use crate::facts::Facts;
use language::{Refusal, Term};
use pile::Pile;
use records::Stretch;

mod calling;
mod checking;
mod inferring;
mod steps;

// A rule that is being walked: the tables that it stands in and that take what it owes, the facts in force, the terms of the names in force and of the lengths of the rule's lists, and the next quantity. Each part is lent by a reference of its own: what a struct leaves behind the references of a struct in it, a proof does not know.
#[derive(Drop)]
pub(crate) struct Walker<'d, 't, 'r, 'g, 'f, 'm, 'n, 'l> {
    pub debts: &'d mut Debts<'t, 'r>,
    pub facts: &'g mut Facts<'f>,
    pub names: &'m mut Pile<'n, Term>,
    pub lengths: &'l [Term],
    pub next: usize,
}

// What an expression is checked against: conditions, and how many of the names in force they see.
#[derive(Clone, Copy)]
pub(crate) struct Promise {
    pub names: usize,
    pub conditions: Stretch,
}

// What is answered where no expression or argument stands, which no sheet that was resolved has.
pub(crate) const ASTRAY: Refusal = Refusal::Full { place: 0 };
