ghost use Rattle.std.specs.Prelude.{◌≡◌, ◌+◌, ◌≤◌, map, length};
ghost use Rattle.grammar.specs.Stretches.{params_at};
ghost use Rattle.grammar.specs.Trees.{look_of};
ghost use Rattle.records.specs.Laying.{columns_of, owed_of};
ghost use Rattle.naming.specs.Sources.{source_of};
ghost use Rattle.naming.specs.Stretching.{written};
ghost use Rattle.records.specs.Tables as lists;
ghost use Rattle.resolving.specs.Making.{Added, ParamsAlone};
ghost use Rattle.naming.specs.Resolving.{param_of};

use naming::{Param as Declared, Written};
use records::{Laid, Param, Stretch};

// A parameter is a list where it has a length. The sheet is there for the contract, which speaks of what is written.
fn sort_of(sheet: Written<'_>, param: Declared) -> Param
    ensures { lists.param_of result ≡ param_of (written (look_of (source_of sheet.entry)) param) }
{
    match param.length {
        Some(_) => Param::List,
        None => Param::Number,
    }
}

// The parameters that begin at a position go into their table; where they lie is given.
pub(crate) fn params_at(sheet: Written<'_>, at: usize, tables: &mut Laid<'_>) -> Stretch
    requires { length (columns_of tables.old).params.entries + length (params_at (length sheet.tokens.now) (look_of (source_of sheet)) at) ≤ (columns_of tables.old).params.room }
    ensures added { Added lists.param_of (map param_of (params_at (length sheet.entry.tokens.now) (look_of (source_of sheet.entry)) at)) (columns_of tables.old).params.entries (columns_of tables.new).params.entries }
    ensures stretch { (result.from ≡ length (columns_of tables.old).params.entries) × (result.to ≡ length (columns_of tables.new).params.entries) }
    ensures others { ParamsAlone (columns_of tables.old) (columns_of tables.new) }
    ensures owed { owed_of tables.new ≡ owed_of tables.old }
{
    let from = tables.count::<Param>();
    for param in sheet.params(at) {
        tables.push(sort_of(sheet, param)).unwrap();
    }
    Stretch {
        from,
        to: tables.count::<Param>(),
    }
}
