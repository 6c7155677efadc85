ghost use Rattle.std.specs.Prelude.{◌≤◌};
ghost use Rattle.pile.specs.Entries.{room};

use letters::MOST_BYTES;
use pile::Pile;

// Room for the names of numbers in force: no more than 16,385 of a head, and a let for each node.
pub const NAME_ROOM: usize = 2 * MOST_BYTES + 1;

// Room for the names of the lists of a head.
pub const LIST_ROOM: usize = MOST_BYTES + 1;

// The names in force, those of numbers and those of lists, by their tokens' numbers. There is room for all that a sheet declares.
#[derive(Drop)]
pub struct Scope<'n> {
    pub names: Pile<'n, usize>,
    pub lists: Pile<'n, usize>,
    ghost roomy: { (32769 ≤ room names) × (16385 ≤ room lists) },
}
