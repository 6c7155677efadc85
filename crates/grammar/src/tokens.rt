// Conditions and params are read again from the tokens: item after item, param after param.
ghost use Rattle.std.specs.Prelude.{◌≡◌, ◌+◌, ◌<◌, ◌≤◌, Bool, true, length, ◌≢◌};
ghost use Rattle.letters.specs.Kinds.{number};
ghost use Rattle.grammar.specs.Parsers.{look_in, is_a};
ghost use Rattle.grammar.specs.Stretches.{past, item_at, param_at};
ghost use Rattle.grammar.specs.Pieces.{item_of, param_of};

use crate::piece::{ItemRead, ParamRead};
use letters::{Kind, Token};

// The tokens of a text, and where the text ends.
#[derive(Clone, Copy, Debug)]
pub struct Tokens<'t> {
    pub tokens: &'t [Token],
    pub end: usize,
}

impl Tokens<'_> {
    // The token with this number; past the last, one at the text's end.
    pub fn token(self, at: usize) -> Token
        ensures { result ≡ look_in self.entry.tokens.now self.entry.end at }
    {
        self.tokens.get(at).copied().unwrap_or(Token::end(self.end))
    }

    // The token with this number is of this kind, which is not the end's: an end stands past the last token, so of its kind the answer would not say that a token is there. A kind that a caller names meets the clause by computing; `sees` asks the same.
    pub(crate) fn stands(self, at: usize, kind: Kind) -> bool
        requires { number kind ≢ number Kind.End }
        ensures told { result ≡ is_a kind (look_in self.entry.tokens.now self.entry.end at) }
        ensures inside { result ≡ true → at < length self.entry.tokens.now }
    {
        self.token(at).is(kind)
    }

    // The item that begins at this token, whatever stands there. Inlined, since its callers use a part of what it gives.
    #[inline(always)]
    pub fn item_at(self, at: usize) -> ItemRead
        ensures read { (m : Bool) → item_at (look_in self.entry.tokens.now self.entry.end) m at ≡ past (item_of m result) (at + result.size) }
        ensures few { result.size ≤ 3 }
    {
        let first = self.token(at);
        if self.stands(at, Kind::Numeral) && self.stands(at + 1, Kind::Times) {
            ItemRead {
                factor: Some(first),
                atom: self.token(at + 2),
                size: 3,
            }
        } else {
            ItemRead {
                factor: None,
                atom: first,
                size: 1,
            }
        }
    }

    // The param that begins at this token, whatever stands there. It is public, for who wants a param's tokens, as `item_at` for an item's; names are read by the numbers of tokens.
    pub fn param_at(self, at: usize) -> ParamRead
        ensures read { param_at (look_in self.entry.tokens.now self.entry.end) at ≡ past (param_of result) (at + result.size) }
        ensures few { result.size ≤ 4 }
    {
        let name = self.token(at);
        if at < self.tokens.len() && self.stands(at + 1, Kind::OpenSquare) {
            ParamRead {
                name,
                length: Some(self.token(at + 2)),
                size: 4,
            }
        } else {
            ParamRead {
                name,
                length: None,
                size: 1,
            }
        }
    }
}
