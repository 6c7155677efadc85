ghost use Rattle.std.specs.Prelude.{◌≡◌, map};
ghost use Rattle.grammar.specs.Raw as raw;
ghost use Rattle.naming.specs.Reaches.{tokens_of};
ghost use Rattle.naming.specs.Sources.{rules_of};
ghost use Rattle.resolving.specs.Making.{Fit};

use naming::Written;

// Where a tree is resolved: the sheet, the tokens of its rules' names, and those of the lists at hand.
#[derive(Clone, Copy)]
pub(crate) struct Context<'t, 'r, 'l> {
    pub sheet: Written<'t>,
    pub rules: &'r [usize],
    pub lists: &'l [usize],
    ghost fit: { Fit sheet },
    ghost named: { tokens_of sheet rules.now ≡ map (λ (r : raw.Rule). r.name) (rules_of sheet) },
}

// Where conditions are resolved: the sheet, and the tokens of the names in force.
#[derive(Clone, Copy)]
pub(crate) struct Scoped<'t, 'n> {
    pub sheet: Written<'t>,
    pub names: &'n [usize],
    ghost fit: { Fit sheet },
}
