ghost use Rattle.std.specs.Prelude.{◌≡◌};
ghost use Rattle.letters.specs.Tokens.{token_of, bytes_of, same_name};
ghost use Rattle.letters.specs.Kinds.{same_kind};

use crate::kind::Kind;

// A token by its first byte and its length in the text; a numeral has its value, any other 0. The value stands beside the kind, so that kinds are compared and tried without one.
#[derive(Clone, Copy, Debug, PartialEq, Eq)]
pub struct Token {
    pub kind: Kind,
    pub place: usize,
    pub size: usize,
    pub value: u32,
}

impl Token {
    // What stands past the last token of a text.
    pub fn end(place: usize) -> Token
        ensures { result ≡ token_of Kind.End place 0 0 }
    {
        Token {
            kind: Kind::End,
            place,
            size: 0,
            value: 0,
        }
    }

    // The token is of this kind. A function and no `==` at each caller: this promises `same_kind`, by which the definitions ask, and every `==` would have to be tied to that anew.
    #[tactic(auto, using(crate::proofs::Equals::tagged), unfolding(crate::specs::Kinds::same_kind))]
    pub fn is(self, kind: Kind) -> bool
        ensures { result ≡ same_kind self.kind kind }
    {
        self.kind == kind
    }

    // The bytes of a text from the token's first on, as many as the token has, as far as the text goes.
    pub fn bytes<'t>(self, text: &'t [u8]) -> &'t [u8]
        ensures { result.now ≡ bytes_of text.now self }
    {
        let start = self.place.min(text.len());
        let size = self.size.min(text.len() - start);
        &text[start..start + size]
    }
}

// Two tokens of a text are written alike.
pub fn same_name(text: &[u8], a: Token, b: Token) -> bool
    ensures { result ≡ same_name text.now a b }
{
    a.bytes(text) == b.bytes(text)
}
