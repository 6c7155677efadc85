ghost use Rattle.std.specs.Prelude.{◌≡◌, true, ◌+◌, ◌<◌, ◌≤◌, IfOk, length};
ghost use Rattle.language.specs.Terms.{fits_term};
ghost use Rattle.pile.specs.Entries.{entries, room};
ghost use Rattle.terms.specs.Listed.{list_of};
ghost use Rattle.walking.specs.Inferring.{Infers, Pairs, Branches, plain};
ghost use Rattle.walking.specs.Stepping.{Sure, Kept};

use super::steps::Site;
use super::{ASTRAY, Promise, Walker};
use language::{Refusal, Term};
use records::Node;
use terms::{Rows, otherwise, rows, worked};

impl Walker<'_, '_, '_, '_, '_, '_, '_, '_> {
    // The expression at a position below `top` is inferred: its term is given.
    #[cycle(arguments_check_check_branch_infer_infer_both_infer_branch_infer_call)]
    pub(crate) fn infer(&mut self, top: usize, at: usize) -> Result<Term, Refusal>
        requires sure { Sure self.old }
        requires room { length (entries self.old.names.now) + top ≤ room self.old.names.now }
        ensures infers { at < top → Infers result at self.old self.new }
        ensures kept { IfOk result (λ t. Kept self.old self.new) }
        ensures fits { IfOk result (λ t. fits_term t ≡ true) }
    {
        if at >= top {
            return Err(ASTRAY);
        }
        let node = self.debts.node(at).ok_or(ASTRAY)?;
        match node {
            Node::Num { place, value } => self.numeral(place, value),
            Node::Name { slot, .. } => Ok(self.named(slot)),
            Node::Calc {
                place,
                operator,
                left,
                right,
            } => {
                let (t, u) = self.infer_both(at, left, right)?;
                self.or_fresh(place, worked(operator, &t, &u))
            }
            Node::Read {
                place,
                list,
                index,
                ..
            } => {
                let t = self.infer(at, index)?;
                let work = place;
                self.touch(at, node, Site { place, work, list }, &t)?;
                self.fresh(place)
            }
            Node::Call { place, rule, args } => self.infer_call(at, place, rule, args),
            Node::Bind { bound, body, .. } => {
                let t = self.infer(at, bound)?;
                let names = self.enter(t);
                let u = self.infer(at, body)?;
                self.leave(names);
                Ok(u)
            }
            Node::Test {
                place,
                comparison,
                left,
                right,
                met,
                unmet,
            } => {
                let (t, u) = self.infer_both(at, left, right)?;
                self.infer_branch(at, met, place, rows(comparison, &t, &u))?;
                self.infer_branch(at, unmet, place, otherwise(comparison, &t, &u))?;
                self.fresh(place)
            }
            Node::Put {
                place: work,
                site: place,
                list,
                index,
                value,
                rest,
                ..
            } => {
                let (t, _) = self.infer_both(at, index, value)?;
                self.touch(at, node, Site { place, work, list }, &t)?;
                self.infer(at, rest)
            }
            Node::Claim {
                place,
                claimed,
                conditions,
            } => {
                let mark = self.mark();
                let names = self.names.mark();
                self.check(at, claimed, Promise { names, conditions })?;
                self.fall_back(mark);
                self.claimed(place, conditions)
            }
            Node::Blank | Node::End | Node::Value { .. } | Node::Lent { .. } => Err(ASTRAY),
        }
    }

    // Two expressions are inferred, the left one first.
    #[cycle(arguments_check_check_branch_infer_infer_both_infer_branch_infer_call)]
    pub(crate) fn infer_both(
        &mut self,
        top: usize,
        left: usize,
        right: usize,
    ) -> Result<(Term, Term), Refusal>
        requires sure { Sure self.old }
        requires room { length (entries self.old.names.now) + top ≤ room self.old.names.now }
        ensures pairs { left < top → right < top → Pairs result left right self.old self.new }
        ensures kept { IfOk result (λ t. Kept self.old self.new) }
        ensures fits { IfOk result (λ (t, u). (fits_term t ≡ true) × (fits_term u ≡ true)) }
    {
        let t = self.infer(top, left)?;
        let u = self.infer(top, right)?;
        Ok((t, u))
    }

    // A branch is inferred with the rows of its comparison; they are taken back afterwards, and so are the quantities.
    #[cycle(arguments_check_check_branch_infer_infer_both_infer_branch_infer_call)]
    fn infer_branch(
        &mut self,
        top: usize,
        at: usize,
        place: usize,
        rows: Rows,
    ) -> Result<(), Refusal>
        requires sure { Sure self.old }
        requires room { length (entries self.old.names.now) + top ≤ room self.old.names.now }
        ensures branches { at < top → Branches result plain place (list_of rows) at self.old self.new }
        ensures kept { IfOk result (λ t. Kept self.old self.new) }
    {
        let mark = self.mark();
        self.assume(place, rows)?;
        self.infer(top, at)?;
        self.fall_back(mark);
        Ok(())
    }
}
