ghost use Rattle.std.specs.Prelude.{◌≤◌, length};
ghost use Rattle.pile.specs.Entries.{entries, room};

use pile::Pile;
use rows::Row;

mod assuming;

// The facts in force, as many as a question may have, on a pile with room for them.
#[derive(Drop)]
pub(crate) struct Facts<'f> {
    pub pile: Pile<'f, Row>,
    ghost roomy: { 24 ≤ room pile },
    ghost few: { length (entries pile) ≤ 24 },
}
