ghost use Rattle.std.specs.Prelude.{◌≡◌, ◌<◌, ◌≤◌, [], ◌∷◌, ◌++◌, length};
ghost use Rattle.grammar.specs.Trees.{look_of};
ghost use Rattle.records.specs.Laying.{columns_of, owed_of};
ghost use Rattle.resolving.specs.Growing.{added};
ghost use Rattle.naming.specs.Sources.{source_of};

use naming::Written;
use records::{Laid, Node};

// Puts a node on top of the others and gives its position.
pub(crate) fn add(tables: &mut Laid<'_>, node: Node) -> usize
    requires { length (columns_of tables.old).nodes.entries < (columns_of tables.old).nodes.room }
    ensures position { result ≡ length (columns_of tables.old).nodes.entries }
    ensures held { columns_of tables.new ≡ added (columns_of tables.old) node }
    ensures owed { owed_of tables.new ≡ owed_of tables.old }
{
    tables.push(node).unwrap()
}

// The place of the token with this number.
pub(crate) fn place(sheet: Written<'_>, token: usize) -> usize
    ensures { result ≡ (look_of (source_of sheet.entry) token).place }
{
    sheet.token(token).place
}
