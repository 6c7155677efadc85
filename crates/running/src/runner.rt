use crate::program::Program;
use language::Part;
use pile::Pile;

mod calling;
mod evaluating;
mod steps;

// What a run changes: the fuel left, the checks made, the cells, and the values of the names in force, of all calls that are open. Each part is lent by a reference of its own.
#[derive(Drop)]
pub(crate) struct Runner<'c, 'v, 's> {
    pub fuel: u32,
    pub checks: u32,
    pub cells: &'c mut [i32],
    pub values: &'v mut Pile<'s, i32>,
}

// A rule's body that is run: the values of its names are those from a base on, and its lists are parts of the cells.
#[derive(Clone, Copy)]
pub(crate) struct Frame<'r, 'm, 'p> {
    pub program: Program<'r, 'm>,
    pub base: usize,
    pub parts: &'p [Part],
}

// Where a list is touched: the place of its name, the number of the check below, and its slot.
#[derive(Clone, Copy)]
pub(crate) struct Site {
    pub place: usize,
    pub number: usize,
    pub list: usize,
}
