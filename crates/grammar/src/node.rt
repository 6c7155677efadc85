// A sheet in flat nodes. A node has the numbers of its tokens, then the positions of its parts, which are lower than its own: nodes lie in a slice that the caller lends, so no part is a Box.
#[derive(Clone, Copy, Debug, PartialEq, Eq)]
pub enum Node {
    Blank,
    Num {
        token: usize,
    },
    Name {
        token: usize,
    },
    // The operator, and both sides.
    Calc {
        sign: usize,
        left: usize,
        right: usize,
    },
    // The list's name, and the index.
    Read {
        name: usize,
        index: usize,
    },
    // The rule's name, and the last argument's node.
    Call {
        name: usize,
        args: usize,
    },
    // `let`, the name, what it stands for, and where it is in force.
    Bind {
        keyword: usize,
        name: usize,
        bound: usize,
        body: usize,
    },
    // `if`, the comparison, both sides and both branches.
    Test {
        keyword: usize,
        sign: usize,
        left: usize,
        right: usize,
        met: usize,
        unmet: usize,
    },
    // `put`, the list's name, the index, the value, and what follows.
    Put {
        keyword: usize,
        name: usize,
        index: usize,
        value: usize,
        rest: usize,
    },
    // `as`, where its conditions begin, and the expression before it.
    Claim {
        keyword: usize,
        conditions: usize,
        inner: usize,
    },
    // The bracket, and the expression in it.
    Nest {
        bracket: usize,
        inner: usize,
    },
    // Arguments: none, or those before and one more.
    NoArgs,
    Arg {
        before: usize,
        last: usize,
    },
    // `rule`, its name, where the params begin, where `needs` and where `gives` would stand, and the body.
    Rule {
        keyword: usize,
        name: usize,
        params: usize,
        needs: usize,
        gives: usize,
        body: usize,
    },
}
