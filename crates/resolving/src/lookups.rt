ghost use Rattle.std.specs.Prelude.{◌≡◌};
ghost use Rattle.naming.specs.Reaches.{tokens_of};
ghost use Rattle.naming.specs.Scopes.{slot_in};
ghost use Rattle.naming.specs.Resolving.{slot_of};

use letters::Token;
use naming::Written;

// Which of the tokens with these numbers is the first that is written as this one; 0 where there is none, which a sheet without faults of names never has, so that an Option would only be taken apart.
pub(crate) fn slot(sheet: Written<'_>, numbers: &[usize], token: Token) -> usize
    ensures { result ≡ slot_of (slot_in sheet.entry.text.now (tokens_of sheet.entry numbers.now) token) }
{
    sheet.find(numbers, token).unwrap_or(0)
}
