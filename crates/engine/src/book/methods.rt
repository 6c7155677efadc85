ghost use Rattle.std.specs.Prelude.{◌≡◌};
ghost use Rattle.language.specs.Drafts as Drafts;
ghost use Rattle.language.specs.Drafts.{first_open, marked};
ghost use Rattle.engine.specs.Clearing.{BookIs};

use super::Book;
use crate::guards::first_open;
use language::Refusal;

impl Book<'_> {
    // The refusal that closes the book, for its first guard that is not settled; none where it is open.
    pub fn closed(&self) -> Option<Refusal>
        ensures { (b : Drafts.Book) → BookIs self.now b → result ≡ first_open 0 b.sheet.obligations (marked b.marks) }
    {
        first_open(self.records, self.sizes.owed, &self.marks)
    }
}
