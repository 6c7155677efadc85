ghost use Rattle.std.specs.Prelude.{◌≡◌, true, ◌<◌, ◌≤◌, ◌∷◌, [], ◌++◌, length, take, pos, Some, IfOk};
ghost use Rattle.std.specs.List.{slice_get};
ghost use Rattle.language.specs.declared.term.Term.{Term};
ghost use Rattle.language.specs.Comparing.{conditions_rows};
ghost use Rattle.language.specs.Terms.{constant, fits_term, limited, zero_term, term_at};
ghost use Rattle.language.specs.Walking.{or_fresh, fresh, fresh_with, assume, owe_all, counted, knowing};
ghost use Rattle.pile.specs.Entries.{entries, room};
ghost use Rattle.records.specs.Laying.{columns_of, owed_of};
ghost use Rattle.terms.specs.Listed.{list_of};
ghost use Rattle.walking.specs.Inferring.{listed_in};
ghost use Rattle.walking.specs.Owing.{checks};
ghost use Rattle.walking.specs.Sides.{Fitting};
ghost use Rattle.walking.specs.Stepping.{Sure, Kept, Finds, Owed, Assumed, Touched, Beside, Fallen, facts_of, stand_of, numbered};

use super::{Promise, Walker};
use crate::conditions::Conditions;
use crate::in_force::Terms;
use crate::quantities;
use language::{Refusal, Term};
use records::{Node, Stretch};
use terms::{Rows, constant, fits};

// How far the facts and the quantities go, to fall back to.
#[derive(Clone, Copy)]
pub(crate) struct Mark {
    pub facts: usize,
    pub next: usize,
}

// Where a list is touched: the place of its name, that of the expression at work, and the list's slot.
#[derive(Clone, Copy)]
pub(crate) struct Site {
    pub place: usize,
    pub work: usize,
    pub list: usize,
}

// A numeral as a term, where it keeps the limit.
fn numeral(value: u32) -> Option<Term>
    ensures { result ≡ limited (constant (pos value)) }
{
    let term = constant(i32::try_from(value).ok()?);
    fits(&term).then_some(term)
}

// The node with another number of its check below; a node that touches no list has none.
fn numbered(node: Node, below: usize) -> Node
    ensures { result ≡ numbered node below }
{
    match node {
        Node::Read {
            place,
            list,
            index,
            ..
        } => Node::Read {
            place,
            number: below,
            list,
            index,
        },
        Node::Put {
            place,
            site,
            list,
            index,
            value,
            rest,
            ..
        } => Node::Put {
            place,
            site,
            number: below,
            list,
            index,
            value,
            rest,
        },
        other => other,
    }
}

impl Walker<'_, '_, '_, '_, '_, '_, '_, '_> {
    // The term of a name in force, by its slot.
    pub(crate) fn named(&self, slot: usize) -> Term
        requires sure { Sure self.now }
        ensures value { result ≡ term_at (entries self.now.names.now) slot }
        ensures fits { fits_term result ≡ true }
    {
        self.names.look(slot).unwrap_or(constant(0))
    }

    // The term of the length of a list, by its slot.
    pub(crate) fn length_of(&self, list: usize) -> Term
        requires sure { Sure self.now }
        ensures value { result ≡ term_at self.now.lengths.now list }
        ensures fits { fits_term result ≡ true }
    {
        self.lengths.get(list).copied().unwrap_or(constant(0))
    }

    // The next quantity, without facts.
    pub(crate) fn fresh(&mut self, place: usize) -> Result<Term, Refusal>
        requires sure { Sure self.old }
        ensures finds { Finds result (fresh place (stand_of self.old) []) self.old self.new }
        ensures kept { IfOk result (λ t. Kept self.old self.new) }
        ensures fits { IfOk result (λ t. fits_term t ≡ true) }
    {
        quantities::fresh(&mut self.next, place)
    }

    // A term that was worked out, or else the next quantity.
    pub(crate) fn or_fresh(&mut self, place: usize, worked: Option<Term>) -> Result<Term, Refusal>
        requires sure { Sure self.old }
        requires fits { (t : Term) → worked ≡ Some t → fits_term t ≡ true }
        ensures finds { Finds result (or_fresh place worked (stand_of self.old) []) self.old self.new }
        ensures kept { IfOk result (λ t. Kept self.old self.new) }
        ensures fits { IfOk result (λ t. fits_term t ≡ true) }
    {
        match worked {
            Some(term) => Ok(term),
            None => self.fresh(place),
        }
    }

    // A numeral's term.
    pub(crate) fn numeral(&mut self, place: usize, value: u32) -> Result<Term, Refusal>
        requires sure { Sure self.old }
        ensures finds { Finds result (or_fresh place (limited (constant (pos value))) (stand_of self.old) []) self.old self.new }
        ensures kept { IfOk result (λ t. Kept self.old self.new) }
        ensures fits { IfOk result (λ t. fits_term t ≡ true) }
    {
        self.or_fresh(place, numeral(value))
    }

    // The next quantity, of which the conditions of a stretch are facts; they see the names in force.
    pub(crate) fn claimed(&mut self, place: usize, listed: Stretch) -> Result<Term, Refusal>
        requires sure { Sure self.old }
        ensures finds { Finds result (fresh_with place (entries self.old.names.now) (listed_in (columns_of self.old.debts.now.tables.now) listed) (stand_of self.old) []) self.old self.new }
        ensures kept { IfOk result (λ t. Kept self.old self.new) }
        ensures fits { IfOk result (λ t. fits_term t ≡ true) }
    {
        let term = quantities::fresh(&mut self.next, place)?;
        let terms = Terms {
            names: self.names.as_slice(),
            outcome: &term,
        };
        let conditions = Conditions {
            tables: self.debts.laid(),
            terms,
        };
        self.facts
            .assume_conditions(conditions, Some(place), listed)?;
        Ok(term)
    }

    // The same of a call's gives, which see the terms that are given.
    pub(crate) fn returned(
        &mut self,
        given: &[Term],
        place: usize,
        listed: Stretch,
    ) -> Result<Term, Refusal>
        requires sure { Sure self.old }
        requires given { Fitting given.now }
        ensures finds { Finds result (fresh_with place given.now (listed_in (columns_of self.old.debts.now.tables.now) listed) (stand_of self.old) []) self.old self.new }
        ensures kept { IfOk result (λ t. Kept self.old self.new) }
        ensures fits { IfOk result (λ t. fits_term t ≡ true) }
    {
        let term = quantities::fresh(&mut self.next, place)?;
        let terms = Terms {
            names: given,
            outcome: &term,
        };
        let conditions = Conditions {
            tables: self.debts.laid(),
            terms,
        };
        self.facts
            .assume_conditions(conditions, Some(place), listed)?;
        Ok(term)
    }

    // Each row of a call's needs is owed as a guard; they see the terms that are given.
    pub(crate) fn owe_needs(
        &mut self,
        given: &[Term],
        place: usize,
        listed: Stretch,
    ) -> Result<(), Refusal>
        requires sure { Sure self.old }
        requires given { Fitting given.now }
        ensures stepped { Owed result (owe_all place (facts_of self.old) (owed_of self.old.debts.now.tables.now) (conditions_rows given.now zero_term (listed_in (columns_of self.old.debts.now.tables.now) listed))) self.old self.new }
        ensures kept { IfOk result (λ t. Kept self.old self.new) }
    {
        let none = constant(0);
        let terms = Terms {
            names: given,
            outcome: &none,
        };
        self.debts
            .owe_conditions(self.facts.rows(), terms, place, listed)
    }

    // Each row of a promise's conditions is owed as a guard, of the term that was found.
    pub(crate) fn owe_promise(
        &mut self,
        promise: Promise,
        place: usize,
        term: &Term,
    ) -> Result<(), Refusal>
        requires sure { Sure self.old }
        requires names { promise.names ≤ length (entries self.old.names.now) }
        requires fits { fits_term term.now ≡ true }
        ensures stepped { Owed result (owe_all place (facts_of self.old) (owed_of self.old.debts.now.tables.now) (conditions_rows (take promise.names (entries self.old.names.now)) term.now (listed_in (columns_of self.old.debts.now.tables.now) promise.conditions))) self.old self.new }
        ensures kept { IfOk result (λ t. Kept self.old self.new) }
    {
        let terms = Terms {
            names: &self.names.as_slice()[..promise.names],
            outcome: term,
        };
        self.debts
            .owe_conditions(self.facts.rows(), terms, place, promise.conditions)
    }

    // The two checks of an index are owed at a list's name, and the node that touches the list gets the number of the first.
    pub(crate) fn touch(
        &mut self,
        at: usize,
        node: Node,
        site: Site,
        index: &Term,
    ) -> Result<(), Refusal>
        requires sure { Sure self.old }
        ensures stepped { Touched result at (numbered node (owed_of self.old.debts.now.tables.now)) (checks site.place site.work (facts_of self.old) (owed_of self.old.debts.now.tables.now) index.now (term_at self.old.lengths.now site.list)) self.old self.new }
        ensures kept { IfOk result (λ t. Kept self.old self.new) }
    {
        let size = self.length_of(site.list);
        let node = numbered(node, self.debts.owed());
        self.debts
            .owe_checks(self.facts.rows(), site.place, site.work, index, &size)?;
        self.debts.set_node(at, node);
        Ok(())
    }

    // The rows of a comparison are in force from now on.
    pub(crate) fn assume(&mut self, place: usize, rows: Rows) -> Result<(), Refusal>
        requires sure { Sure self.old }
        ensures stepped { Assumed result (assume place (facts_of self.old) (list_of rows)) self.old self.new }
        ensures kept { IfOk result (λ t. Kept self.old self.new) }
    {
        self.facts.assume(place, rows)
    }

    // How far the facts and the quantities go.
    pub(crate) fn mark(&self) -> Mark
        ensures facts { result.facts ≡ length (facts_of self.now) }
        ensures next { result.next ≡ self.now.next }
    {
        Mark {
            facts: self.facts.mark(),
            next: self.next,
        }
    }

    // The facts and the quantities fall back to a mark.
    pub(crate) fn fall_back(&mut self, mark: Mark)
        ensures { Fallen mark.facts mark.next self.old self.new }
    {
        self.facts.fall_back(mark.facts);
        self.next = mark.next;
    }

    // A name's term is in force from now on; how many were before is given.
    pub(crate) fn enter(&mut self, term: Term) -> usize
        requires room { length (entries self.old.names.now) < room self.old.names.now }
        requires fits { fits_term term ≡ true }
        ensures mark { result ≡ length (entries self.old.names.now) }
        ensures names { entries self.new.names.now ≡ entries self.old.names.now ++ term ∷ [] }
        ensures beside { Beside self.old self.new }
    {
        let mark = self.names.mark();
        self.names.push(term).unwrap();
        mark
    }

    // The names fall back to as many.
    pub(crate) fn leave(&mut self, names: usize)
        ensures names { entries self.new.names.now ≡ take names (entries self.old.names.now) }
        ensures beside { Beside self.old self.new }
    {
        self.names.fall_back(names);
    }
}
