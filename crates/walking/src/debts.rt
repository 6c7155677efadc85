ghost use Rattle.walking.specs.Owing.{Spacious};

use records::Laid;

mod conditions;
mod owing;

// The tables that take what a sheet owes. There are records for all that it may owe.
#[derive(Drop)]
pub(crate) struct Debts<'t, 'r> {
    pub tables: &'t mut Laid<'r>,
    ghost spacious: { Spacious tables.now },
}
