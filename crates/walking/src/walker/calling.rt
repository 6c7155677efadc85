ghost use Rattle.std.specs.Prelude.{◌≡◌, true, ◌+◌, ◌<◌, ◌≤◌, IfOk, Some, length};
ghost use Rattle.std.specs.List.{slice_get};
ghost use Rattle.language.specs.Terms.{fits_term};
ghost use Rattle.pile.specs.Entries.{entries, room};
ghost use Rattle.records.specs.Laying.{columns_of};
ghost use Rattle.records.specs.declared.node.Node.TheVariants.{Call};
ghost use Rattle.walking.specs.Calling.{CalleeOf, SameParams, after, is_end};
ghost use Rattle.walking.specs.Inferring.{Infers, Gives};
ghost use Rattle.walking.specs.Sides.{Fitting};
ghost use Rattle.walking.specs.Stepping.{Sure, Kept};

use super::{ASTRAY, Walker};
use language::{Refusal, Term};
use pile::Pile;
use records::{Entry, Laid, Node, Param, Stretch};
use terms::constant;

// No rule has more parameters: 4 lists and 8 numbers.
const MOST_PARAMS: usize = 12;

// Where the arguments go on after the first, if that is what a parameter asks for.
fn after(first: Option<Node>, param: Param) -> Option<usize>
    ensures { result ≡ after first param }
{
    match (first?, param) {
        (Node::Value { rest, .. }, Param::Number) => Some(rest),
        (Node::Lent { rest, .. }, Param::List) => Some(rest),
        _ => None,
    }
}

// Whether no arguments are left.
fn is_end(first: Option<Node>) -> bool
    ensures { result ≡ is_end first }
{
    matches!(first, Some(Node::End))
}

// Whether the arguments from a position on are, one for one, what these parameters ask for: an expression for a number, a list for a list.
fn same_params(tables: &Laid<'_>, args: usize, params: Stretch) -> bool
    ensures { SameParams result (columns_of tables.now) args params }
{
    let mut at = args;
    for param in tables.entries_of::<Param>(params) {
        let Some(rest) = after(tables.get::<Node>(at), param) else {
            return false;
        };
        at = rest;
    }
    is_end(tables.get::<Node>(at))
}

// The rule with this number, if there is one that takes these arguments.
fn callee(tables: &Laid<'_>, rule: usize, args: usize) -> Option<Entry>
    ensures { CalleeOf result (columns_of tables.now) rule args }
{
    let entry = tables.get::<Entry>(rule)?;
    same_params(tables, args, entry.params).then_some(entry)
}

impl Walker<'_, '_, '_, '_, '_, '_, '_, '_> {
    // A call is inferred: its arguments, then the callee's needs are owed, then its gives are facts of the next quantity.
    #[cycle(arguments_check_check_branch_infer_infer_both_infer_branch_infer_call)]
    pub(crate) fn infer_call(
        &mut self,
        at: usize,
        place: usize,
        rule: usize,
        args: usize,
    ) -> Result<Term, Refusal>
        requires sure { Sure self.old }
        requires room { length (entries self.old.names.now) + at ≤ room self.old.names.now }
        requires node { slice_get (columns_of self.old.debts.now.tables.now).nodes.entries at ≡ Some (Call place rule args) }
        ensures infers { Infers result at self.old self.new }
        ensures kept { IfOk result (λ t. Kept self.old self.new) }
        ensures fits { IfOk result (λ t. fits_term t ≡ true) }
    {
        let callee = callee(self.debts.laid(), rule, args).ok_or(Refusal::Name { place })?;
        let mut room = [constant(0); MOST_PARAMS];
        let mut given = Pile::over(&mut room);
        self.arguments(at, args, &mut given)?;
        self.owe_needs(given.as_slice(), place, callee.needs)?;
        self.returned(given.as_slice(), place, callee.gives)
    }

    // The terms of the arguments at a position below `top` join those given, from the left; a list that is lent gives its length.
    #[cycle(arguments_check_check_branch_infer_infer_both_infer_branch_infer_call)]
    fn arguments(
        &mut self,
        top: usize,
        at: usize,
        given: &mut Pile<'_, Term>,
    ) -> Result<(), Refusal>
        requires sure { Sure self.old }
        requires room { length (entries self.old.names.now) + top ≤ room self.old.names.now }
        requires fits { Fitting (entries given.old) }
        ensures gives { at < top → Gives result at given.old given.new self.old self.new }
        ensures kept { IfOk result (λ t. Kept self.old self.new) }
        ensures fits { Fitting (entries given.new) }
    {
        if at >= top {
            return Err(ASTRAY);
        }
        let node = self.debts.node(at).ok_or(ASTRAY)?;
        match node {
            Node::End => Ok(()),
            Node::Value { argument, rest } => {
                let term = self.infer(at, argument)?;
                given.push(term).map_err(|_| ASTRAY)?;
                self.arguments(at, rest, given)
            }
            Node::Lent { list, rest } => {
                given.push(self.length_of(list)).map_err(|_| ASTRAY)?;
                self.arguments(at, rest, given)
            }
            _ => Err(ASTRAY),
        }
    }
}
