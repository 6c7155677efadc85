ghost use Rattle.std.specs.Prelude.{◌≡◌, ◌+◌, ◌<◌, ◌≤◌, length};
ghost use Rattle.pile.specs.Entries.{entries, room};
ghost use Rattle.grammar.specs.Parsers.{look_in};
ghost use Rattle.showing.specs.Fronts.{front, Kept};
ghost use Rattle.showing.specs.Probes.{number_at, probed, passed, Tells, TellsEach, Told};

use crate::kinds::{KIND_COUNT, KINDS, Kinds};
use crate::probe::Probe;
use grammar::{Node, Tokens, Unread, parse};
use letters::{Kind, Token};
use pile::Pile;

// The number of the first token that begins at a place, or of the end.
fn number_at(tokens: &[Token], place: usize) -> usize
    ensures told { result ≡ number_at tokens.now place }
    ensures within { result ≤ length tokens.now }
{
    tokens
        .iter()
        .position(|token| token.place == place)
        .unwrap_or(tokens.len())
}

// No fault was found at the place.
fn is_past(read: Result<usize, Unread>, place: usize) -> bool
    ensures { result ≡ passed read place }
{
    !matches!(read, Err(Unread::Fault(fault)) if fault == place)
}

impl Probe<'_> {
    // The grammar goes past a token of this kind, put behind the others; the text ends after it.
    fn goes_past(&mut self, kind: Kind, nodes: &mut [Node]) -> bool
        requires { length (front self.old) < length nodes.old }
        ensures told { Tells result (look_in (probed (front self.old) self.old.place kind) (self.old.place + 1)) (length (front self.old)) }
        ensures kept { Kept self.old self.new }
    {
        let mark = self.tokens.mark();
        self.tokens
            .push(Token {
                kind,
                place: self.place,
                size: 0,
                value: 0,
            })
            .unwrap();
        let source = Tokens {
            tokens: self.tokens.as_slice(),
            end: self.place + 1,
        };
        let past = is_past(parse(source, nodes), self.place);
        self.tokens.fall_back(mark);
        past
    }

    // The kinds of which the grammar goes past a token.
    fn each_kind(&mut self, nodes: &mut [Node]) -> Kinds
        requires { length (front self.old) < length nodes.old }
        ensures { TellsEach result (front self.old) self.old.place (length (front self.old)) }
    {
        let mut flags = [false; KIND_COUNT];
        for kind in KINDS {
            flags[usize::from(kind.number())] = self.goes_past(kind, nodes);
        }
        Kinds { flags }
    }
}

// A pile of these tokens; the scratch has room for them.
fn piled<'s>(tokens: &[Token], scratch: &'s mut [Token]) -> Pile<'s, Token>
    requires { length tokens.now ≤ length scratch.old }
    ensures held { entries result ≡ tokens.now }
    ensures room { room result ≡ length scratch.old }
{
    let mut pile = Pile::over(scratch);
    for token in tokens {
        pile.push(*token).unwrap();
    }
    pile
}

// The kinds of token that the grammar would have taken at a place where it finds a fault: each is tried after the tokens before that place. Nodes and scratch are room to work in, one more of each than there are tokens before the place; where that is wanting, there is no answer.
pub fn expected(
    tokens: &[Token],
    place: usize,
    nodes: &mut [Node],
    scratch: &mut [Token],
) -> Option<Kinds>
    ensures { Told result tokens.now place (length nodes.old) (length scratch.old) }
{
    let at = number_at(tokens, place);
    if at >= nodes.len() || at >= scratch.len() || place == usize::MAX {
        return None;
    }
    let mut probe = Probe {
        tokens: piled(&tokens[..at], scratch),
        place,
    };
    Some(probe.each_kind(nodes))
}
