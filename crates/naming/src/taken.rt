// An argument, and those before it, by the positions of their nodes. The node itself has these two as fields: a type there would have to be named in each match and in each definition of the grammar.
#[derive(Clone, Copy)]
pub struct Last {
    pub before: usize,
    pub last: usize,
}

// A rule by its tokens, where its parameters and conditions would begin, and its body's node; these too are fields of the node.
#[derive(Clone, Copy)]
pub struct Ruled {
    pub keyword: usize,
    pub name: usize,
    pub params: usize,
    pub needs: usize,
    pub gives: usize,
    pub body: usize,
}
