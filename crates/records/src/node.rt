use crate::stretch::Stretch;
use language::{Comparison, Operator};

// A node of a sheet's tree, its names resolved. Parts are given by their positions, which are lower than the node's own: nodes lie in records that the caller lends, so no part is a Box.
#[derive(Clone, Copy, Debug, PartialEq, Eq)]
pub enum Node {
    Blank,
    Num {
        place: usize,
        value: u32,
    },
    // A name, by its slot among the names in force.
    Name {
        place: usize,
        slot: usize,
    },
    Calc {
        place: usize,
        operator: Operator,
        left: usize,
        right: usize,
    },
    // An element of a list: the place of the list's name, the number of the check below, and the list's slot.
    Read {
        place: usize,
        number: usize,
        list: usize,
        index: usize,
    },
    // A call of a rule, by its number, with the first argument's node.
    Call {
        place: usize,
        rule: usize,
        args: usize,
    },
    Bind {
        place: usize,
        bound: usize,
        body: usize,
    },
    Test {
        place: usize,
        comparison: Comparison,
        left: usize,
        right: usize,
        met: usize,
        unmet: usize,
    },
    // The place of the keyword, then what a read has, then index, value and what follows.
    Put {
        place: usize,
        site: usize,
        number: usize,
        list: usize,
        index: usize,
        value: usize,
        rest: usize,
    },
    // An expression and the conditions that it is to meet.
    Claim {
        place: usize,
        claimed: usize,
        conditions: Stretch,
    },
    // Arguments: none, or an expression's value or a list that is lent, before the rest.
    End,
    Value {
        argument: usize,
        rest: usize,
    },
    Lent {
        list: usize,
        rest: usize,
    },
}
