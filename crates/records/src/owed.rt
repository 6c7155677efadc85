use language::Duty;
use rows::MOST_FACTS;

// So many records hold the rows of an obligation, its facts and its goal as the last: they lie in lent records, so they are no list.
pub(crate) const ROWS_EACH: usize = MOST_FACTS + 1;

// What a sheet owes at a place: its duty, and how many facts its question has.
#[derive(Clone, Copy, Debug, PartialEq, Eq)]
pub struct Owed {
    pub duty: Duty,
    pub place: usize,
    pub facts: usize,
}
