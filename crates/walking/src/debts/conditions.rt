ghost use Rattle.std.specs.Prelude.{◌≤◌, length};
ghost use Rattle.language.specs.Walking.{owe_all};
ghost use Rattle.records.specs.Laying.{columns_of, owed_of};
ghost use Rattle.walking.specs.Keeping.{DebtsKept};
ghost use Rattle.walking.specs.Owing.{Paid};
ghost use Rattle.records.specs.Sound.{Sound};
ghost use Rattle.walking.specs.Sides.{rows_in};

use super::Debts;
use crate::conditions::Conditions;
use crate::in_force::Terms;
use language::Refusal;
use records::{Condition, Stretch};
use rows::Row;

impl Debts<'_, '_> {
    // Each row of the conditions of a stretch of their table, as far as the table goes, is owed as a guard at a place.
    pub(crate) fn owe_conditions(
        &mut self,
        facts: &[Row],
        terms: Terms<'_>,
        place: usize,
        listed: Stretch,
    ) -> Result<(), Refusal>
        requires sound { Sound (columns_of self.old.tables.now) }
        requires few { length facts.now ≤ 24 }
        ensures paid { Paid result (owe_all place facts.now (owed_of self.old.tables.now) (rows_in (columns_of self.old.tables.now) terms.entry.names.now terms.entry.outcome.now listed.from listed.to)) self.old.tables.now self.new.tables.now }
        ensures kept { DebtsKept self.old self.new }
    {
        // Owing writes the tables, so no iterator may borrow them here: the positions are gone through.
        let end = listed.to.min(self.tables.count::<Condition>());
        for at in listed.from..end {
            let conditions = Conditions {
                tables: &*self.tables,
                terms,
            };
            let rows = conditions.rows_at(at);
            self.owe_rows(facts, place, rows)?;
        }
        Ok(())
    }
}
