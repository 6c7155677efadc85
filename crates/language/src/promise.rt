ghost use Rattle.std.specs.Prelude.{◌≡◌};
ghost use Rattle.language.specs.Drafts.{is_guard};
ghost use Rattle.language.specs.Promise.{Promise};

use crate::duty::Duty;

// Whether an obligation keeps a book closed until it is settled. What holds once a book is open is the promise.
pub fn is_guard(duty: Duty) -> bool
    ensures value { result ≡ is_guard duty }
    ensures promise { Promise }
{
    matches!(duty, Duty::Guard)
}
