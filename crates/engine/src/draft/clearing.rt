ghost use Rattle.language.specs.Drafts as Drafts;
ghost use Rattle.engine.specs.Drafting.{DraftIs};
ghost use Rattle.engine.specs.Clearing.{BookIs};

use super::Draft;
use crate::book::Book;

impl<'r> Draft<'r> {
    // The book of this draft, over the same records; it is closed if a guard is left. The draft is gone.
    pub fn clear(self) -> Book<'r>
        ensures { (d : Drafts.Draft) → DraftIs self.entry d → BookIs result (Drafts.clear d) }
    {
        let Draft {
            records,
            low,
            high,
            sizes,
            marks,
        } = self;
        Book {
            records,
            low,
            high,
            sizes,
            marks,
        }
    }
}
