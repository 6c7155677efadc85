ghost use Rattle.std.specs.Prelude.{◌≡◌, ◌≤◌, List, length};
ghost use Rattle.std.specs.List.{slice_get};
ghost use Rattle.records.specs.Owing.{OwesAll};
ghost use Rattle.language.specs.Walking.{Obligation, owe, owe_all};
ghost use Rattle.terms.specs.Listed.{list_of};
ghost use Rattle.records.specs.Laying.{columns_of, records_of, owed_of};
ghost use Rattle.walking.specs.Keeping.{DebtsKept, with_node};
ghost use Rattle.walking.specs.Owing.{Paid, checks};

use super::Debts;
use language::{Check, Duty, MOST_OBLIGATIONS, Refusal, Term};
use records::{Laid, Node};
use rows::Row;
use terms::{Rows, at_most, below, constant};

impl<'r> Debts<'_, 'r> {
    // The tables, to be read.
    pub(crate) fn laid(&self) -> &Laid<'r>
        ensures { result.now ≡ self.now.tables.now }
    {
        &*self.tables
    }

    // How many obligations there are.
    pub(crate) fn owed(&self) -> usize
        ensures { result ≡ owed_of self.now.tables.now }
    {
        self.tables.owed()
    }

    // The node at a position, or none past the last.
    pub(crate) fn node(&self, at: usize) -> Option<Node>
        ensures { result ≡ slice_get (columns_of self.now.tables.now).nodes.entries at }
    {
        self.tables.get::<Node>(at)
    }

    // The node at a position is another from now on; past the last nothing changes.
    pub(crate) fn set_node(&mut self, at: usize, node: Node)
        ensures held { columns_of self.new.tables.now ≡ with_node (columns_of self.old.tables.now) at node }
        ensures owed { owed_of self.new.tables.now ≡ owed_of self.old.tables.now }
        ensures owes { (os : List Obligation) → OwesAll (records_of self.old.tables.now) os → OwesAll (records_of self.new.tables.now) os }
        ensures kept { DebtsKept self.old self.new }
    {
        self.tables.set(at, node);
    }

    // A row is owed at a place, with the facts in force, which the obligation takes along. It is refused where there is no row, or no room for one obligation more, at the place of the expression at work.
    pub(crate) fn owe(
        &mut self,
        facts: &[Row],
        duty: Duty,
        place: usize,
        work: usize,
        row: Option<Row>,
    ) -> Result<(), Refusal>
        requires { length facts.now ≤ 24 }
        ensures paid { Paid result (owe duty place work facts.now (owed_of self.old.tables.now) row) self.old.tables.now self.new.tables.now }
        ensures kept { DebtsKept self.old self.new }
    {
        let row = row.ok_or(Refusal::Large { place: work })?;
        if self.tables.owed() >= MOST_OBLIGATIONS {
            return Err(Refusal::Full { place: work });
        }
        self.tables
            .owe(duty, place, facts, row)
            .map_err(|_| Refusal::Full { place: work })
    }

    // The rows of a comparison are owed as guards at a place.
    pub(crate) fn owe_rows(
        &mut self,
        facts: &[Row],
        place: usize,
        rows: Rows,
    ) -> Result<(), Refusal>
        requires { length facts.now ≤ 24 }
        ensures paid { Paid result (owe_all place facts.now (owed_of self.old.tables.now) (list_of rows)) self.old.tables.now self.new.tables.now }
        ensures kept { DebtsKept self.old self.new }
    {
        for row in rows {
            self.owe(facts, Duty::Guard, place, place, row)?;
        }
        Ok(())
    }

    // The two checks of an index are owed at a list's name: that it is not below 0, and that it is below the list's length.
    pub(crate) fn owe_checks(
        &mut self,
        facts: &[Row],
        place: usize,
        work: usize,
        index: &Term,
        size: &Term,
    ) -> Result<(), Refusal>
        requires { length facts.now ≤ 24 }
        ensures paid { Paid result (checks place work facts.now (owed_of self.old.tables.now) index.now size.now) self.old.tables.now self.new.tables.now }
        ensures kept { DebtsKept self.old self.new }
    {
        self.owe(
            facts,
            Duty::Check(Check::Below),
            place,
            work,
            at_most(&constant(0), index),
        )?;
        self.owe(
            facts,
            Duty::Check(Check::Above),
            place,
            work,
            below(index, size),
        )
    }
}
