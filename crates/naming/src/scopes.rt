ghost use Rattle.std.specs.Prelude.{◌≡◌};
ghost use Rattle.naming.specs.Faults.{found, fresh};
ghost use Rattle.naming.specs.Least.{least};
ghost use Rattle.naming.specs.Reaches.{among, tokens_of, scope_of};
ghost use Rattle.naming.specs.Scopes.{slot_in};

use crate::written::Written;
use letters::{Token, same_name};

impl Written<'_> {
    // Which of the tokens with these numbers is the first that is written as this one.
    pub fn find(self, numbers: &[usize], token: Token) -> Option<usize>
        ensures { result ≡ slot_in self.entry.text.now (tokens_of self.entry numbers.now) token }
    {
        numbers
            .iter()
            .position(|number| same_name(self.text, self.token(*number), token))
    }

    // One of the tokens with these numbers is written as this one.
    pub fn is_among(self, numbers: &[usize], token: Token) -> bool
        ensures { result ≡ among self.entry numbers.now token }
    {
        self.find(numbers, token).is_some()
    }

    // The place of a name that is not one of these.
    pub fn unknown(self, numbers: &[usize], token: Token) -> Option<usize>
        ensures { result ≡ least (found (slot_in self.entry.text.now (tokens_of self.entry numbers.now) token) token) }
    {
        (!self.is_among(numbers, token)).then_some(token.place)
    }

    // The place of a name that is one of these already.
    pub fn declared(self, names: &[usize], lists: &[usize], token: Token) -> Option<usize>
        ensures { result ≡ least (fresh self.entry.text.now (scope_of self.entry names.now lists.now) token) }
    {
        (self.is_among(names, token) || self.is_among(lists, token)).then_some(token.place)
    }
}
