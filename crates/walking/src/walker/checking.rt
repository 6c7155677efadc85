ghost use Rattle.std.specs.Prelude.{◌≡◌, ◌+◌, ◌<◌, ◌≤◌, IfOk, length};
ghost use Rattle.pile.specs.Entries.{entries, room};
ghost use Rattle.terms.specs.Listed.{list_of};
ghost use Rattle.walking.specs.Inferring.{Checks, Branches, mode_of};
ghost use Rattle.walking.specs.Stepping.{Sure, Kept};

use super::steps::Site;
use super::{ASTRAY, Promise, Walker};
use language::Refusal;
use records::Node;
use terms::{Rows, otherwise, rows};

impl Walker<'_, '_, '_, '_, '_, '_, '_, '_> {
    // The expression at a position below `top` is checked against a promise: through let, if and put into their last parts; of any other expression the term owes each row of the conditions.
    #[cycle(arguments_check_check_branch_infer_infer_both_infer_branch_infer_call)]
    pub(crate) fn check(&mut self, top: usize, at: usize, promise: Promise) -> Result<(), Refusal>
        requires sure { Sure self.old }
        requires room { length (entries self.old.names.now) + top ≤ room self.old.names.now }
        requires names { promise.names ≤ length (entries self.old.names.now) }
        ensures checks { at < top → Checks result (mode_of promise self.old) at self.old self.new }
        ensures kept { IfOk result (λ t. Kept self.old self.new) }
    {
        if at >= top {
            return Err(ASTRAY);
        }
        let node = self.debts.node(at).ok_or(ASTRAY)?;
        match node {
            Node::Bind { bound, body, .. } => {
                let t = self.infer(at, bound)?;
                let names = self.enter(t);
                self.check(at, body, promise)?;
                self.leave(names);
                Ok(())
            }
            Node::Test {
                place,
                comparison,
                left,
                right,
                met,
                unmet,
            } => {
                let (t, u) = self.infer_both(at, left, right)?;
                self.check_branch(at, met, place, rows(comparison, &t, &u), promise)?;
                self.check_branch(at, unmet, place, otherwise(comparison, &t, &u), promise)
            }
            Node::Put {
                place: work,
                site: place,
                list,
                index,
                value,
                rest,
                ..
            } => {
                let (t, _) = self.infer_both(at, index, value)?;
                self.touch(at, node, Site { place, work, list }, &t)?;
                self.check(at, rest, promise)
            }
            Node::Num { place, .. }
            | Node::Name { place, .. }
            | Node::Calc { place, .. }
            | Node::Read { place, .. }
            | Node::Call { place, .. }
            | Node::Claim { place, .. } => {
                let term = self.infer(top, at)?;
                self.owe_promise(promise, place, &term)
            }
            Node::Blank | Node::End | Node::Value { .. } | Node::Lent { .. } => Err(ASTRAY),
        }
    }

    // A branch is checked with the rows of its comparison; they are taken back afterwards, and so are the quantities.
    #[cycle(arguments_check_check_branch_infer_infer_both_infer_branch_infer_call)]
    fn check_branch(
        &mut self,
        top: usize,
        at: usize,
        place: usize,
        rows: Rows,
        promise: Promise,
    ) -> Result<(), Refusal>
        requires sure { Sure self.old }
        requires room { length (entries self.old.names.now) + top ≤ room self.old.names.now }
        requires names { promise.names ≤ length (entries self.old.names.now) }
        ensures branches { at < top → Branches result (mode_of promise self.old) place (list_of rows) at self.old self.new }
        ensures kept { IfOk result (λ t. Kept self.old self.new) }
    {
        let mark = self.mark();
        self.assume(place, rows)?;
        self.check(top, at, promise)?;
        self.fall_back(mark);
        Ok(())
    }
}
