ghost use Rattle.std.specs.Prelude.{◌≡◌, length};
ghost use Rattle.std.specs.List.{slice_get};
ghost use Rattle.language.specs.Drafts as Drafts;
ghost use Rattle.language.specs.Drafts.{marked};
ghost use Rattle.engine.specs.Drafting.{DraftIs};
ghost use Rattle.engine.specs.Listing.{listed, Poses, ReadBack};

use super::Draft;
use crate::listed::Listed;
use language::Refusal;
use records::{Asked, obligation, owed_at};
use rows::{MOST_FACTS, Row};

impl Draft<'_> {
    // How many rules the sheet has.
    pub fn rules(&self) -> usize
        ensures { (d : Drafts.Draft) → DraftIs self.now d → result ≡ length d.sheet.rules }
    {
        self.sizes.rules
    }

    // How many obligations the sheet has.
    pub fn owed(&self) -> usize
        ensures { (d : Drafts.Draft) → DraftIs self.now d → result ≡ length d.sheet.obligations }
    {
        self.sizes.owed
    }

    fn is_marked(&self, number: usize) -> bool
        ensures { result ≡ marked self.now.marks number }
    {
        self.marks.get(number).copied().unwrap_or(false)
    }

    // How the obligation with this number stands; refused where there is none.
    pub fn obligation(&self, number: usize) -> Result<Listed, Refusal>
        ensures { (d : Drafts.Draft) → DraftIs self.now d → result ≡ listed d number }
    {
        if number >= self.sizes.owed {
            return Err(Refusal::Number);
        }
        let Some(owed) = owed_at(self.records, number) else {
            return Err(Refusal::Number);
        };
        Ok(Listed {
            duty: owed.duty,
            place: owed.place,
            settled: self.is_marked(number),
        })
    }

    // What the obligation with this number asks, its facts at the front of the room that is lent; refused where there is none, and the room stays.
    pub fn question(&self, number: usize, room: &mut [Row; MOST_FACTS]) -> Result<Asked, Refusal>
        ensures poses { (d : Drafts.Draft) → DraftIs self.now d → Poses result (slice_get d.sheet.obligations number) room.old room.new }
        ensures read { ReadBack result self.now number room.old room.new }
    {
        if number >= self.sizes.owed {
            return Err(Refusal::Number);
        }
        obligation(self.records, number, room).ok_or(Refusal::Number)
    }
}
