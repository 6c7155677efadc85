ghost use Rattle.std.specs.Prelude.{◌≡◌, ◌+◌, ◌*◌, ◌≤◌, IfOk, Some, length};
ghost use Rattle.std.specs.List.{slice_get};
ghost use Rattle.pile.specs.Entries.{entries, room};
ghost use Rattle.records.specs.Columns.{tables_in};
ghost use Rattle.running.specs.Ending.{Beside, Lent};
ghost use Rattle.running.specs.Evaluating.{Runs, NodeRuns, Evals, NodeEvals, Short};
ghost use Rattle.running.specs.Nodes.{place_in};

use super::{Frame, Runner, Site};
use crate::program::{ASTRAY, Stop, reckoned};
use crate::slots::node_at;
use language::Ending;
use records::Node;

// The place of an expression, by its node.
fn place_in(node: Node) -> usize
    ensures { result ≡ place_in node }
{
    match node {
        Node::Num { place, .. }
        | Node::Name { place, .. }
        | Node::Calc { place, .. }
        | Node::Read { place, .. }
        | Node::Call { place, .. }
        | Node::Bind { place, .. }
        | Node::Test { place, .. }
        | Node::Put { place, .. }
        | Node::Claim { place, .. } => place,
        Node::Blank | Node::End | Node::Value { .. } | Node::Lent { .. } => 0,
    }
}

impl Runner<'_, '_, '_> {
    // The value of the expression at a position, where so many may still stand one in another.
    #[cycle(arguments_call_eval_node)]
    pub(crate) fn eval(
        &mut self,
        frame: Frame<'_, '_, '_>,
        left: u32,
        at: usize,
    ) -> Result<i32, Stop>
        requires runs { ∥ Runs frame left at self.old ∥₁ }
        requires base { frame.base ≤ length (entries self.old.values.now) }
        requires short { Short frame.parts.now }
        requires room { length (entries self.old.values.now) + 12 * left ≤ room self.old.values.now }
        requires count { self.old.checks + 2 * self.old.fuel ≤ 4294967295 }
        ensures evals { Evals result frame.entry left at self.old self.new }
        ensures beside { IfOk result (λ x. Beside self.old self.new) }
        ensures lent { Lent self.old self.new }
        ensures count { self.new.checks + 2 * self.new.fuel ≤ self.old.checks + 2 * self.old.fuel }
    {
        let node = node_at(frame.program.records, at).ok_or(ASTRAY)?;
        let place = place_in(node);
        self.spend(place)?;
        if left == 0 {
            return Err(Stop {
                kind: Ending::Deep,
                place,
            });
        }
        self.node(frame, left - 1, at, node)
    }

    // The value of an expression that has taken its unit, by its node; its parts may have so many one in another.
    #[cycle(arguments_call_eval_node)]
    fn node(
        &mut self,
        frame: Frame<'_, '_, '_>,
        left: u32,
        at: usize,
        node: Node,
    ) -> Result<i32, Stop>
        requires runs { ∥ NodeRuns frame left at self.old ∥₁ }
        requires node { slice_get (tables_in frame.program.records.now).nodes at ≡ Some node }
        requires base { frame.base ≤ length (entries self.old.values.now) }
        requires short { Short frame.parts.now }
        requires room { length (entries self.old.values.now) + 12 * left + 12 ≤ room self.old.values.now }
        requires count { self.old.checks + 2 + 2 * self.old.fuel ≤ 4294967295 }
        ensures evals { NodeEvals result frame.entry left at self.old self.new }
        ensures beside { IfOk result (λ x. Beside self.old self.new) }
        ensures lent { Lent self.old self.new }
        ensures count { self.new.checks + 2 * self.new.fuel ≤ self.old.checks + 2 + 2 * self.old.fuel }
    {
        match node {
            Node::Num { place, value } => frame.program.fit(place, i64::from(value)),
            Node::Name { place, slot } => {
                let value = self.named(frame.base, slot);
                frame.program.fit(place, i64::from(value))
            }
            Node::Calc {
                place,
                operator,
                left: first,
                right: second,
            } => {
                let x = self.eval(frame, left, first)?;
                let y = self.eval(frame, left, second)?;
                frame.program.fit(place, reckoned(operator, x, y))
            }
            Node::Read {
                place,
                number,
                list,
                index,
            } => {
                let x = self.eval(frame, left, index)?;
                let site = Site {
                    place,
                    number,
                    list,
                };
                let cell = self.touch(frame, site, x)?;
                let value = self.load(cell);
                frame.program.fit(place, i64::from(value))
            }
            Node::Call { place, rule, args } => self.call(frame, left, at, place, rule, args),
            Node::Bind { bound, body, .. } => {
                let x = self.eval(frame, left, bound)?;
                let mark = self.values.mark();
                self.hold(x);
                let y = self.eval(frame, left, body)?;
                self.fall_back(mark);
                Ok(y)
            }
            Node::Test {
                comparison,
                left: first,
                right: second,
                met,
                unmet,
                ..
            } => {
                let x = self.eval(frame, left, first)?;
                let y = self.eval(frame, left, second)?;
                if comparison.holds(x, y) {
                    return self.eval(frame, left, met);
                }
                self.eval(frame, left, unmet)
            }
            Node::Put {
                site: place,
                number,
                list,
                index,
                value,
                rest,
                ..
            } => {
                let x = self.eval(frame, left, index)?;
                let y = self.eval(frame, left, value)?;
                let site = Site {
                    place,
                    number,
                    list,
                };
                let cell = self.touch(frame, site, x)?;
                self.store(cell, y);
                self.eval(frame, left, rest)
            }
            Node::Claim { claimed, .. } => self.eval(frame, left, claimed),
            Node::Blank | Node::End | Node::Value { .. } | Node::Lent { .. } => Err(ASTRAY),
        }
    }
}
