ghost use Rattle.std.specs.Prelude.{◌≡◌};
ghost use Rattle.std.specs.Iterator.{YieldsFirst, item_count};
ghost use Rattle.records.specs.Laying.{columns_of};
ghost use Rattle.records.specs.Leaving.{left_of};
ghost use Rattle.records.specs.Tables.{stretch};

use super::Entries;
use crate::laid::Laid;
use crate::stretch::Stretch;
use crate::tabled::Tabled;
use std::marker::PhantomData;

impl<'r> Laid<'r> {
    // The entries of a stretch of a table, as far as the table goes.
    pub fn entries_of<E: Tabled>(&self, listed: Stretch) -> Entries<'_, 'r, E>
        ensures { left_of E.table result ≡ stretch (E.table (columns_of self.now)).entries listed.from listed.to }
    {
        Entries {
            tables: self,
            left: listed,
            entry: PhantomData,
        }
    }
}

impl<E: Tabled> Iterator for Entries<'_, '_, E> {
    type Item = E;

    ghost next_gives = { YieldsFirst (left_of E.table) };

    ghost remaining = { item_count (left_of E.table) };

    fn next(&mut self) -> Option<E> {
        let at = self.left.from;
        if at >= self.left.to {
            return None;
        }
        let entry = self.tables.get::<E>(at)?;
        self.left.from = at + 1;
        Some(entry)
    }
}
