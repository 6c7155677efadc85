ghost use Rattle.std.specs.Prelude.{◌≡◌, ◌∷◌, [], length, take};
ghost use Rattle.language.specs.Walking.{assume, assume_all};
ghost use Rattle.pile.specs.Entries.{entries};
ghost use Rattle.records.specs.Laying.{columns_of};
ghost use Rattle.records.specs.Tables.{conditions_in};
ghost use Rattle.terms.specs.Listed.{list_of};
ghost use Rattle.walking.specs.Keeping.{FactsKept};
ghost use Rattle.walking.specs.Knowing.{Took, placed};

use super::Facts;
use crate::conditions::Conditions;
use language::Refusal;
use records::{Condition, Stretch};
use rows::{MOST_FACTS, Row};
use terms::Rows;

impl Facts<'_> {
    // The rows that are facts.
    pub(crate) fn rows(&self) -> &[Row]
        ensures { result.now ≡ entries self.now.pile }
    {
        self.pile.as_slice()
    }

    // How many there are, which is the mark to fall back to.
    pub(crate) fn mark(&self) -> usize
        ensures { result ≡ length (entries self.now.pile) }
    {
        self.pile.mark()
    }

    // The facts from a mark on are in force no more.
    pub(crate) fn fall_back(&mut self, mark: usize)
        ensures held { entries self.new.pile ≡ take mark (entries self.old.pile) }
        ensures kept { FactsKept self.old self.new }
    {
        self.pile.fall_back(mark);
    }

    // A row is in force from now on, unless there is none or no room for one more; the place is that of the refusal.
    fn assume_row(&mut self, place: usize, row: Option<Row>) -> Result<(), Refusal>
        ensures took { Took result (assume place (entries self.old.pile) (row ∷ [])) (entries self.old.pile) (entries self.new.pile) }
        ensures kept { FactsKept self.old self.new }
    {
        let row = row.ok_or(Refusal::Large { place })?;
        if self.pile.mark() >= MOST_FACTS {
            return Err(Refusal::Full { place });
        }
        self.pile.push(row).map_err(|_| Refusal::Full { place })
    }

    // The rows of a comparison are in force from now on.
    pub(crate) fn assume(&mut self, place: usize, rows: Rows) -> Result<(), Refusal>
        ensures took { Took result (assume place (entries self.old.pile) (list_of rows)) (entries self.old.pile) (entries self.new.pile) }
        ensures kept { FactsKept self.old self.new }
    {
        for row in rows {
            self.assume_row(place, row)?;
        }
        Ok(())
    }

    // The conditions of a stretch of their table are in force from now on, each at the given place or else at its own.
    pub(crate) fn assume_conditions(
        &mut self,
        conditions: Conditions<'_, '_, '_>,
        place: Option<usize>,
        listed: Stretch,
    ) -> Result<(), Refusal>
        ensures took { Took result (assume_all (placed place) conditions.entry.terms.names.now conditions.entry.terms.outcome.now (entries self.old.pile) (conditions_in (columns_of conditions.entry.tables.now).items.entries (columns_of conditions.entry.tables.now).conditions.entries listed.from listed.to)) (entries self.old.pile) (entries self.new.pile) }
        ensures kept { FactsKept self.old self.new }
    {
        for condition in conditions.tables.entries_of::<Condition>(listed) {
            let place = place.unwrap_or(condition.place);
            self.assume(place, conditions.rows_of(condition))?;
        }
        Ok(())
    }
}
