ghost use Rattle.std.specs.Prelude.{◌≡◌, ◌+◌, ◌≤◌, length, drop};
ghost use Rattle.grammar.specs.Trees.{look_of, args_at};
ghost use Rattle.pile.specs.Entries.{entries, room};
ghost use Rattle.naming.specs.Faults.{count_args};
ghost use Rattle.naming.specs.Reaches.{Went};
ghost use Rattle.naming.specs.Sources.{source_of};
ghost use Rattle.naming.specs.Stretching.{left};
ghost use Rattle.naming.specs.Walks.{expr_at, arguments_at};

use crate::head::Params;
use crate::least::earlier;
use crate::written::Written;
use grammar::Node;
use pile::Pile;

impl Written<'_> {
    // The first fault in the expression at a position below `top`. The names in force are the same again afterwards. There is room for a name for each position below `top`: that changes with each part, so no type of the names can hold it.
    #[cycle(args_fault_expr_fault)]
    pub(crate) fn expr_fault(
        &self,
        lists: &[usize],
        names: &mut Pile<'_, usize>,
        top: usize,
        at: usize,
    ) -> Option<usize>
        requires { length (entries names.old) + top ≤ room names.old }
        ensures { Went result (expr_at self.now lists.now top at) names.old names.new }
    {
        match self.node(top, at)? {
            Node::Blank | Node::Num { .. } | Node::NoArgs | Node::Arg { .. } | Node::Rule { .. } =>
                None,
            Node::Name { token } => self.unknown(names.as_slice(), self.token(token)),
            Node::Calc { left, right, .. } => {
                let left = self.expr_fault(lists, names, at, left);
                let right = self.expr_fault(lists, names, at, right);
                earlier(left, right)
            }
            Node::Read { name, index } => {
                let list = self.unknown(lists, self.token(name));
                let index = self.expr_fault(lists, names, at, index);
                earlier(list, index)
            }
            Node::Call { name, args } => match self.callee(self.token(name), at, args) {
                Some(params) => {
                    self.args_fault(lists, names, &mut self.params(params), at, args)
                }
                None => Some(self.token(name).place),
            },
            Node::Bind {
                name,
                bound,
                body,
                ..
            } => {
                let twice = self.declared(names.as_slice(), lists, self.token(name));
                let bound = self.expr_fault(lists, names, at, bound);
                let mark = names.mark();
                names.push(name).unwrap();
                let body = self.expr_fault(lists, names, at, body);
                names.fall_back(mark);
                earlier(earlier(twice, bound), body)
            }
            Node::Test {
                left,
                right,
                met,
                unmet,
                ..
            } => {
                let left = self.expr_fault(lists, names, at, left);
                let right = self.expr_fault(lists, names, at, right);
                let met = self.expr_fault(lists, names, at, met);
                let unmet = self.expr_fault(lists, names, at, unmet);
                earlier(earlier(left, right), earlier(met, unmet))
            }
            Node::Put {
                name,
                index,
                value,
                rest,
                ..
            } => {
                let list = self.unknown(lists, self.token(name));
                let index = self.expr_fault(lists, names, at, index);
                let value = self.expr_fault(lists, names, at, value);
                let rest = self.expr_fault(lists, names, at, rest);
                earlier(earlier(list, index), earlier(value, rest))
            }
            Node::Claim {
                conditions,
                inner,
                ..
            } => {
                let claimed = self.expr_fault(lists, names, at, inner);
                let conditions = self.conditions_fault(
                    names.as_slice(),
                    self.conditions(conditions),
                );
                earlier(claimed, conditions)
            }
            Node::Nest { inner, .. } => self.expr_fault(lists, names, at, inner),
        }
    }

    // The first fault in the arguments at a position below `top`, each for the next of the parameters.
    #[cycle(args_fault_expr_fault)]
    fn args_fault(
        &self,
        lists: &[usize],
        names: &mut Pile<'_, usize>,
        params: &mut Params<'_>,
        top: usize,
        at: usize,
    ) -> Option<usize>
        requires { length (entries names.old) + top ≤ room names.old }
        ensures went { Went result (arguments_at self.now lists.now (left params.old) top at) names.old names.new }
        ensures left { left params.new ≡ drop (count_args (args_at (source_of self.now) top self.now.nodes.now at)) (left params.old) }
    {
        let part = self.last(top, at)?;
        let before = self.args_fault(lists, names, params, at, part.before);
        let inside = self.expr_fault(lists, names, at, part.last);
        let fault = self.arg_fault(lists, params.wants_list(), at, part.last, inside);
        earlier(before, fault)
    }
}
