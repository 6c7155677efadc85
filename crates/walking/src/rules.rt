ghost use Rattle.std.specs.Prelude.{◌≡◌, ◌≤◌, ◌<◌, ◌∷◌, ◌++◌, [], List, length, IfOk};
ghost use Rattle.language.specs.Tree.{Rule};
ghost use Rattle.pile.specs.Entries.{entries, room};
ghost use Rattle.records.specs.Laying.{columns_of, owed_of};
ghost use Rattle.records.specs.Sound.{Sound};
ghost use Rattle.walking.specs.Bodies.{RuleWalked};
ghost use Rattle.walking.specs.Inferring.{listed_in};
ghost use Rattle.walking.specs.Keeping.{DebtsKept};
ghost use Rattle.walking.specs.Knowing.{Took};
ghost use Rattle.walking.specs.Owing.{Spacious};
ghost use Rattle.walking.specs.Sides.{Fitting};
ghost use Rattle.walking.specs.Starting.{Declared, lengths_known, needs_known, params_at};
ghost use Rattle.walking.specs.Walked.{Ruled, Walked};

use crate::conditions::Conditions;
use crate::debts::Debts;
use crate::facts::Facts;
use crate::in_force::Terms;
use crate::quantities::fresh;
use crate::walker::{ASTRAY, Promise, Walker};
use language::{Refusal, Term};
use pile::Pile;
use records::{Entry, Laid, Param};
use rows::{Kind, MOST_FACTS, QUANTITIES, Row};
use terms::{Rows, at_most, constant};

// A sheet has as many nodes at most, and a let at a position has the names of a rule and of lets at higher positions before it.
const MOST_NODES: usize = 16_384;

const NAMES_ROOM: usize = MOST_NODES + QUANTITIES;

// What room for facts is filled with.
fn any_row() -> Row {
    Row::new([0; QUANTITIES], 0, Kind::AtMost).unwrap()
}

// A term is put on a pile that has room for it.
fn put(pile: &mut Pile<'_, Term>, term: Term)
    requires { length (entries pile.old) < room pile.old }
    ensures held { entries pile.new ≡ entries pile.old ++ term ∷ [] }
    ensures room { room pile.new ≡ room pile.old }
{
    pile.push(term).unwrap();
}

// The parameters of a rule: each name's term is the next quantity, and those of the lists' lengths are kept apart. How many there are is given.
fn declare(
    tables: &Laid<'_>,
    entry: Entry,
    names: &mut Pile<'_, Term>,
    lengths: &mut Pile<'_, Term>,
) -> Result<usize, Refusal>
    requires names { entries names.old ≡ [] }
    requires lengths { entries lengths.old ≡ [] }
    requires names_room { 16 ≤ room names.old }
    requires lengths_room { 16 ≤ room lengths.old }
    ensures declared { Declared result (params_at (columns_of tables.now) entry) entry.place (entries names.new) (entries lengths.new) }
    ensures room { room names.new ≡ room names.old }
{
    let mut next = 0;
    for param in tables.entries_of::<Param>(entry.params) {
        let term = fresh(&mut next, entry.place)?;
        put(names, term);
        match param {
            Param::Number => {}
            Param::List => put(lengths, term),
        }
    }
    Ok(next)
}

// Each length is at least 0.
fn assume_lengths(place: usize, lengths: &[Term], facts: &mut Facts<'_>) -> Result<(), Refusal>
    ensures took { Took result (lengths_known place (entries facts.old.pile) lengths.now) (entries facts.old.pile) (entries facts.new.pile) }
{
    let none = constant(0);
    for length in lengths {
        facts.assume(place, Rows::One(at_most(&none, length)))?;
    }
    Ok(())
}

// Each length is at least 0, and the needs hold.
fn start_facts(
    tables: &Laid<'_>,
    entry: Entry,
    names: &[Term],
    lengths: &[Term],
    facts: &mut Facts<'_>,
) -> Result<(), Refusal>
    requires sound { Sound (columns_of tables.now) }
    requires fits { Fitting names.now }
    ensures took { Took result (needs_known entry.place (entries facts.old.pile) names.now lengths.now (listed_in (columns_of tables.now) entry.needs)) (entries facts.old.pile) (entries facts.new.pile) }
{
    assume_lengths(entry.place, lengths, facts)?;
    let none = constant(0);
    let terms = Terms {
        names,
        outcome: &none,
    };
    facts.assume_conditions(Conditions { tables, terms }, None, entry.needs)
}

// A rule's body is checked against its gives.
fn walk_rule(debts: &mut Debts<'_, '_>, entry: Entry, names: &mut [Term]) -> Result<(), Refusal>
    requires sound { Sound (columns_of debts.old.tables.now) }
    requires room { 16400 ≤ length names.old }
    ensures walked { RuleWalked result entry debts.old.tables.now debts.new.tables.now }
    ensures sound { IfOk result (λ v. Sound (columns_of debts.new.tables.now)) }
    ensures kept { IfOk result (λ v. DebtsKept debts.old debts.new) }
{
    // So many names could be in force at such a body that there is no room; no sheet that is read has one.
    if entry.body >= MOST_NODES {
        return Err(ASTRAY);
    }
    let mut facts_room = [any_row(); MOST_FACTS];
    let mut lengths_room = [constant(0); QUANTITIES];
    let mut facts = Facts {
        pile: Pile::over(&mut facts_room),
    };
    let mut names = Pile::over(names);
    let mut lengths = Pile::over(&mut lengths_room);
    let next = declare(debts.laid(), entry, &mut names, &mut lengths)?;
    start_facts(
        debts.laid(),
        entry,
        names.as_slice(),
        lengths.as_slice(),
        &mut facts,
    )?;
    let promise = Promise {
        names: names.mark(),
        conditions: entry.gives,
    };
    let mut walker = Walker {
        debts,
        facts: &mut facts,
        names: &mut names,
        lengths: lengths.as_slice(),
        next,
    };
    walker.check(entry.body + 1, entry.body, promise)
}

// What the rules of the tables owe is found, rule after rule, and put beside them; their reads and puts get the numbers of their checks. The first limit that is met refuses.
pub fn walk(tables: &mut Laid<'_>) -> Result<(), Refusal>
    requires sound { Sound (columns_of tables.old) }
    requires few { length (columns_of tables.old).nodes.entries ≤ 16384 }
    requires spacious { Spacious tables.old }
    requires none { owed_of tables.old ≡ 0 }
    ensures walked { (rules : List Rule) → Ruled (columns_of tables.old) rules → Walked result rules tables.old tables.new }
{
    let rules = tables.count::<Entry>();
    let mut names = [constant(0); NAMES_ROOM];
    let mut debts = Debts { tables };
    for rule in 0..rules {
        if let Some(entry) = debts.laid().get::<Entry>(rule) {
            walk_rule(&mut debts, entry, &mut names)?;
        }
    }
    Ok(())
}
