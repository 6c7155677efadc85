ghost use Rattle.std.specs.Prelude.{◌^◌, ◌<◌, ◌≤◌, length};
ghost use Rattle.pile.specs.Entries.{entries, room};

use crate::node::Node;
use crate::tokens::Tokens;
use pile::Pile;

// Where a parse stands: the token at hand, and the nodes made so far. Each node has a token of its own that was passed, so there is always room for one.
#[derive(Drop)]
pub struct Parser<'t, 'p, 'n> {
    pub source: Tokens<'t>,
    pub at: usize,
    pub nodes: &'p mut Pile<'n, Node>,
    ghost within: { (length (entries nodes.now) ≤ at) × (at ≤ length source.tokens.now) × (length source.tokens.now ≤ room nodes.now) },
    ghost few: { length source.tokens.now < 2 ^ 64 },
}
