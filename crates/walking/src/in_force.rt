ghost use Rattle.std.specs.Prelude.{◌≡◌, true};
ghost use Rattle.language.specs.Comparing.{atom_term};
ghost use Rattle.language.specs.Terms.{fits_term};
ghost use Rattle.records.specs.Tables.{atom_of};
ghost use Rattle.std.proofs.Props.{props};
ghost use Rattle.walking.specs.Sides.{Fitting};

use language::Term;
use records::Atom;
use terms::constant;

// The terms of the names in force, by slot, and the term of the result. All keep their limits.
#[derive(Clone, Copy)]
pub(crate) struct Terms<'a> {
    pub names: &'a [Term],
    pub outcome: &'a Term,
    ghost names_fit: { Fitting names.now } by { Prim.hlevel props },
    ghost outcome_fits: { fits_term outcome.now ≡ true },
}

impl Terms<'_> {
    // What an item takes so many times.
    pub(crate) fn of(self, atom: Atom) -> Term
        ensures { result ≡ atom_term self.entry.names.now self.entry.outcome.now (atom_of atom) }
    {
        match atom {
            Atom::One => constant(1),
            Atom::Named(slot) => self.names.get(slot).copied().unwrap_or(constant(0)),
            Atom::TheResult => *self.outcome,
        }
    }
}
