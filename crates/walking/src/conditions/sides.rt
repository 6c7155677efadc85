ghost use Rattle.std.specs.Prelude.{◌≡◌};
ghost use Rattle.language.specs.Comparing.{side_term, condition_rows};
ghost use Rattle.records.specs.Laying.{columns_of};
ghost use Rattle.records.specs.Tables.{side_in, condition_in};
ghost use Rattle.terms.specs.Listed.{list_of};
ghost use Rattle.terms.specs.Totals.{sum_of};
ghost use Rattle.walking.specs.Sides.{RowsAt};

use super::Conditions;
use records::{Condition, Item, Stretch};
use terms::{Rows, Total, condition_rows};

impl Conditions<'_, '_, '_> {
    // A side added up: the items of a stretch of their table.
    fn side_total(self, side: Stretch) -> Total
        ensures { sum_of result ≡ side_term self.entry.terms.names.now self.entry.terms.outcome.now (side_in (columns_of self.entry.tables.now).items.entries side.from side.to) }
    {
        // A `for`: that the total still takes an item is known of the turn, and not in a fold's closure.
        let mut total = Total::zero();
        for item in self.tables.entries_of::<Item>(side) {
            let term = self.terms.of(item.atom);
            total = total.add(item.factor, &term).unwrap_or(total);
        }
        total
    }

    // The rows of a condition over the items of the tables: none in their place where a side is past the limit of terms.
    pub(crate) fn rows_of(self, condition: Condition) -> Rows
        ensures { list_of result ≡ condition_rows self.entry.terms.names.now self.entry.terms.outcome.now (condition_in (columns_of self.entry.tables.now).items.entries condition) }
    {
        condition_rows(
            condition.comparison,
            self.side_total(condition.left),
            self.side_total(condition.right),
        )
    }

    // The rows of the condition at a position; past the last, none in their place.
    pub(crate) fn rows_at(self, at: usize) -> Rows
        ensures { RowsAt result self.entry.terms.names.now self.entry.terms.outcome.now (columns_of self.entry.tables.now).items.entries (columns_of self.entry.tables.now).conditions.entries at }
    {
        match self.tables.get::<Condition>(at) {
            Some(condition) => self.rows_of(condition),
            None => Rows::One(None),
        }
    }
}
