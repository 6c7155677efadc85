ghost use Rattle.std.specs.Prelude.{◌≡◌};
ghost use Rattle.grammar.specs.declared.unread.Unread.TheVariants.{Fault};

use crate::misplaced::Misplaced;
use thiserror::Error;

// Why tokens are no sheet: there are more of them than nodes, or the place of the first token that no sheet has there.
#[derive(Clone, Copy, Debug, PartialEq, Eq, Error)]
pub enum Unread {
    #[error("there are more tokens than nodes")]
    Full,
    #[error("no sheet has the token at byte {0} there")]
    Fault(usize),
}

// By hand, not by thiserror: what it gives is promised.
impl From<Misplaced> for Unread {
    ghost from_gives = { λ m u. u ≡ Fault m.place };

    fn from(misplaced: Misplaced) -> Unread {
        Unread::Fault(misplaced.place)
    }
}
