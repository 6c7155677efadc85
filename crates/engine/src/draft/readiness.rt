ghost use Rattle.std.specs.Prelude.{◌≡◌, ℤ, List};
ghost use Rattle.language.specs.Tree.{Rule};
ghost use Rattle.language.specs.Drafts as Drafts;
ghost use Rattle.language.specs.Drafts.{sheet_of, draft_of};
ghost use Rattle.language.specs.Histories.{Step, draft_after};
ghost use Rattle.engine.specs.Drafting.{DraftIs};
ghost use Rattle.engine.specs.Promised.{Promised};

use super::Draft;
use crate::guards::first_open;
use language::Refusal;

impl Draft<'_> {
    // Whether every guard is settled; else the first that is not. It moves nothing.
    // Of a draft after any settlings of a fresh one: what is settled is what had a good settling, and no guard is open just if each had one.
    pub fn ready(&self) -> Result<(), Refusal>
        ensures value { (d : Drafts.Draft) → DraftIs self.now d → result ≡ Drafts.readiness d }
        ensures promised { (low high : ℤ) (rules : List Rule) (history : List Step) → DraftIs self.now (draft_after (draft_of (sheet_of low high rules)) history) → Promised result self.now (sheet_of low high rules) history }
    {
        match first_open(self.records, self.sizes.owed, &self.marks) {
            Some(refusal) => Err(refusal),
            None => Ok(()),
        }
    }
}
