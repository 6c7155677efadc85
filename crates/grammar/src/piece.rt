use letters::Token;

// An item of a side: its factor if one is written, its numeral, name or `result`, and how many tokens it has. That follows from the factor, and stands so that who goes on to the next item need not know how one is written.
#[derive(Clone, Copy, Debug, PartialEq, Eq)]
pub struct ItemRead {
    pub factor: Option<Token>,
    pub atom: Token,
    pub size: usize,
}

// A param: its name, its length's name if it is a list, and how many tokens it has, which stands for the same reason.
#[derive(Clone, Copy, Debug, PartialEq, Eq)]
pub struct ParamRead {
    pub name: Token,
    pub length: Option<Token>,
    pub size: usize,
}
