ghost use Rattle.std.specs.Prelude.{◌≡◌, ◌<◌, length, take, Some, None};
ghost use Rattle.grammar.specs.Trees.{look_of};
ghost use Rattle.naming.specs.Sources.{source_of, node_in};

use crate::written::Written;
use grammar::{Node, Tokens};
use letters::{MOST_BYTES, Token};

// The first elements of a slice, as many as a text has bytes at most.
fn front<T>(xs: &[T]) -> &[T]
    ensures { result.now ≡ take 16384 xs.now }
{
    &xs[0..xs.len().min(MOST_BYTES)]
}

impl<'t> Written<'t> {
    // No text has more tokens or nodes than bytes, so only so many are taken.
    pub fn new(text: &'t [u8], tokens: &'t [Token], nodes: &'t [Node]) -> Written<'t>
        ensures text { result.text.now ≡ text.now }
        ensures tokens { result.tokens.now ≡ take 16384 tokens.now }
        ensures nodes { result.nodes.now ≡ take 16384 nodes.now }
    {
        Written {
            text,
            tokens: front(tokens),
            nodes: front(nodes),
        }
    }

    // The tokens, and where the text ends.
    pub fn source(self) -> Tokens<'t>
        ensures { (result.tokens.now ≡ self.entry.tokens.now) × (result.end ≡ length self.entry.text.now) }
    {
        Tokens {
            tokens: self.tokens,
            end: self.text.len(),
        }
    }

    // The token with this number, or the one that stands past the last.
    pub fn token(self, i: usize) -> Token
        ensures { result ≡ look_of (source_of self.entry) i }
    {
        self.source().token(i)
    }

    // The node at a position, if that lies below `top`. The two are no struct of their own: a part is read below its node, so `expr(at, left)` has two new ones at each call, and a struct would be made for each to be taken apart here.
    pub fn node(self, top: usize, at: usize) -> Option<Node>
        ensures read { result ≡ node_in top self.entry.nodes.now at }
        ensures below { elim result [ Some n ↦ at < top | None ↦ Unit {0} ] }
    {
        if at < top && at < self.nodes.len() {
            Some(self.nodes[at])
        } else {
            None
        }
    }
}
