ghost use Rattle.std.specs.Prelude.{◌≡◌, ◌+◌, ◌*◌, ◌<◌, ◌≤◌, ◌∷◌, [], ◌++◌, pos, IfOk, Some, length};
ghost use Rattle.std.specs.List.{slice_get};
ghost use Rattle.language.specs.Running.{part_at};
ghost use Rattle.pile.specs.Entries.{entries, room};
ghost use Rattle.records.specs.Columns.{tables_in};
ghost use Rattle.records.specs.declared.node.Node.TheVariants.{Call};
ghost use Rattle.running.specs.Ending.{Apart, Beside, Lent};
ghost use Rattle.running.specs.Evaluating.{NodeRuns, NodeEvals, ArgsRun, ArgsGive, Short};

use super::{Frame, Runner};
use crate::program::{ASTRAY, Stop, part_at};
use crate::slots::{entry_at, node_at};
use language::Part;
use pile::Pile;
use records::Node;

// No rule has more parameters: 4 lists and 8 numbers.
const MOST_PARAMS: usize = 12;

// An entry is put on a pile that has room for it.
fn put<T: Copy>(pile: &mut Pile<'_, T>, entry: T)
    requires { length (entries pile.old) < room pile.old }
    ensures held { entries pile.new ≡ entries pile.old ++ entry ∷ [] }
    ensures room { room pile.new ≡ room pile.old }
{
    pile.push(entry).unwrap();
}

// The length of a part as a value.
fn length_of(part: Part) -> i32
    requires { part.length < 2147483648 }
    ensures { result ≡ pos part.length }
{
    part.length as i32
}

impl Runner<'_, '_, '_> {
    // These values join those in force; how many were before is given.
    pub(crate) fn enter(&mut self, values: &[i32]) -> usize
        requires room { length (entries self.old.values.now) + length values.now ≤ room self.old.values.now }
        ensures mark { result ≡ length (entries self.old.values.now) }
        ensures values { entries self.new.values.now ≡ entries self.old.values.now ++ values.now }
        ensures beside { Apart self.old self.new }
    {
        let mark = self.values.mark();
        for value in values {
            self.hold(*value);
        }
        mark
    }

    // The value of a call: its arguments, then the rule's body with them as its values.
    #[cycle(arguments_call_eval_node)]
    pub(crate) fn call(
        &mut self,
        frame: Frame<'_, '_, '_>,
        left: u32,
        at: usize,
        place: usize,
        rule: usize,
        args: usize,
    ) -> Result<i32, Stop>
        requires runs { ∥ NodeRuns frame left at self.old ∥₁ }
        requires node { slice_get (tables_in frame.program.records.now).nodes at ≡ Some (Call place rule args) }
        requires base { frame.base ≤ length (entries self.old.values.now) }
        requires short { Short frame.parts.now }
        requires room { length (entries self.old.values.now) + 12 * left + 12 ≤ room self.old.values.now }
        requires count { self.old.checks + 2 + 2 * self.old.fuel ≤ 4294967295 }
        ensures evals { NodeEvals result frame.entry left at self.old self.new }
        ensures beside { IfOk result (λ x. Beside self.old self.new) }
        ensures lent { Lent self.old self.new }
        ensures count { self.new.checks + 2 * self.new.fuel ≤ self.old.checks + 2 + 2 * self.old.fuel }
    {
        let entry = entry_at(frame.program.records, rule).ok_or(ASTRAY)?;
        let mut values = [0; MOST_PARAMS];
        let mut given = Pile::over(&mut values);
        let mut parts = [Part {
            start: 0,
            length: 0,
        }; MOST_PARAMS];
        let mut lent = Pile::over(&mut parts);
        self.arguments(frame, left, args, &mut given, &mut lent)?;
        let base = self.enter(given.as_slice());
        let callee = Frame {
            program: frame.program,
            base,
            parts: lent.as_slice(),
        };
        let value = self.eval(callee, left, entry.body)?;
        self.fall_back(base);
        Ok(value)
    }

    // The values of the arguments at a position join those given, from the left, and the parts that they lend those lent; a list that is lent gives its length.
    #[cycle(arguments_call_eval_node)]
    fn arguments(
        &mut self,
        frame: Frame<'_, '_, '_>,
        left: u32,
        at: usize,
        given: &mut Pile<'_, i32>,
        lent: &mut Pile<'_, Part>,
    ) -> Result<(), Stop>
        requires runs { ∥ ArgsRun frame left at given.old lent.old self.old ∥₁ }
        requires base { frame.base ≤ length (entries self.old.values.now) }
        requires short { Short frame.parts.now }
        requires room { length (entries self.old.values.now) + 12 * left ≤ room self.old.values.now }
        requires count { self.old.checks + 2 * self.old.fuel ≤ 4294967295 }
        ensures gives { ArgsGive result frame.entry left at given.old given.new lent.old lent.new self.old self.new }
        ensures beside { IfOk result (λ x. Beside self.old self.new) }
        ensures lent { Lent self.old self.new }
        ensures count { self.new.checks + 2 * self.new.fuel ≤ self.old.checks + 2 * self.old.fuel }
        ensures rooms { (room given.new ≡ room given.old) × (room lent.new ≡ room lent.old) }
    {
        let node = node_at(frame.program.records, at).ok_or(ASTRAY)?;
        match node {
            Node::Value { argument, rest } => {
                let x = self.eval(frame, left, argument)?;
                put(given, x);
                self.arguments(frame, left, rest, given, lent)
            }
            Node::Lent { list, rest } => {
                let part = part_at(frame.parts, list);
                put(given, length_of(part));
                put(lent, part);
                self.arguments(frame, left, rest, given, lent)
            }
            Node::End => Ok(()),
            _ => Err(ASTRAY),
        }
    }
}
