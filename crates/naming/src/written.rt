ghost use Rattle.std.specs.Prelude.{◌≤◌, length};

use grammar::Node;
use letters::Token;

// A sheet as it is written: its text, the tokens of that, and the nodes of the tree.
#[derive(Clone, Copy)]
pub struct Written<'t> {
    pub text: &'t [u8],
    pub tokens: &'t [Token],
    pub nodes: &'t [Node],
    ghost few: { (length tokens.now ≤ 16384) × (length nodes.now ≤ 16384) },
}
