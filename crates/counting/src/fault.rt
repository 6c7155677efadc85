ghost use Rattle.std.specs.Prelude.{◌≡◌, length, None};
ghost use Rattle.naming.specs.Sources.{rules_of};
ghost use Rattle.records.specs.Laying.{columns_of};
ghost use Rattle.counting.specs.Counts.{flat_fault, FlatWithin};

use crate::heads::{heads_over, rules_over};
use crate::search::first_over;
use naming::{Written, earlier};
use records::{Condition, Laid, Node};

const MOST_EXPRS: usize = 1024;

const MOST_CONDITIONS: usize = 128;

// The first place past what a sheet may have, given the tables that its tree lies in; none exactly where no limit is passed.
pub fn count_fault(sheet: Written<'_>, tables: &Laid<'_>) -> Option<usize>
    ensures value { result ≡ flat_fault (length sheet.entry.text.now) (rules_of sheet.entry) (columns_of tables.now).nodes.entries (columns_of tables.now).conditions.entries }
    ensures within { result ≡ None → FlatWithin (length sheet.entry.text.now) (rules_of sheet.entry) (columns_of tables.now).nodes.entries (columns_of tables.now).conditions.entries }
    ensures none { FlatWithin (length sheet.entry.text.now) (rules_of sheet.entry) (columns_of tables.now).nodes.entries (columns_of tables.now).conditions.entries → result ≡ None }
{
    let bytes = sheet.text.len();
    let heads = earlier(rules_over(sheet), heads_over(sheet));
    let exprs = first_over::<Node>(tables, MOST_EXPRS, bytes);
    let listed = first_over::<Condition>(tables, MOST_CONDITIONS, bytes);
    earlier(heads, earlier(exprs, listed))
}
