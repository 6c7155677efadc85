pub use crate::stretch::Stretch;

// A parameter of a rule: a number, or a list with its length.
#[derive(Clone, Copy, Debug, PartialEq, Eq)]
pub enum Param {
    Number,
    List,
}

// A rule: its parameters, needs and gives as stretches of their tables, and the position of its body.
#[derive(Clone, Copy, Debug, PartialEq, Eq)]
pub struct Entry {
    pub place: usize,
    pub params: Stretch,
    pub needs: Stretch,
    pub gives: Stretch,
    pub body: usize,
}
