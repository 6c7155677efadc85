ghost use Rattle.std.specs.Prelude.{◌≡◌, ◌≤◌, [], ◌∷◌, is_some, if◌then◌else◌};
ghost use Rattle.std.specs.List.{slice_get};
ghost use Rattle.grammar.specs.Trees.{raw_at, rule_in, rules_to};
ghost use Rattle.naming.specs.Faults.{rules_faults, name_fault};
ghost use Rattle.naming.specs.Least.{least};
ghost use Rattle.naming.specs.Reaches.{sheet_of};
ghost use Rattle.naming.specs.Scopes as scopes;
ghost use Rattle.naming.specs.Sources.{source_of, rules_of};

use crate::least::earlier;
use crate::scope::{LIST_ROOM, NAME_ROOM, Scope};
use crate::written::Written;
use letters::{Kind, Token};
use pile::Pile;

impl Written<'_> {
    // The place of a rule's name that is declared below a position already.
    fn named_twice(self, at: usize, name: Token) -> Option<usize>
        ensures { result ≡ least (if is_some (scopes.rule_in self.entry.text.now (rules_to (source_of self.entry) at self.entry.nodes.now) name) then name.place ∷ [] else []) }
    {
        self.rule_named(at, name)?;
        Some(name.place)
    }

    // The first fault of the rule at a position, if one stands there.
    fn rule_fault(self, scope: &mut Scope<'_>, at: usize) -> Option<usize>
        requires { at ≤ 16384 }
        ensures { result ≡ least (rules_faults (sheet_of self.entry) (rules_to (source_of self.entry) at self.entry.nodes.now) (rule_in (source_of self.entry) (raw_at (source_of self.entry) at self.entry.nodes.now) (slice_get self.entry.nodes.now at))) }
    {
        let rule = self.rule(at)?;
        let twice = self.named_twice(at, self.token(rule.name));
        let head = scope.enter(self.params(rule.params));
        let needs = self.conditions_fault(
            scope.names.as_slice(),
            self.optional(Kind::Needs, rule.needs),
        );
        let gives = self.conditions_fault(
            scope.names.as_slice(),
            self.optional(Kind::Gives, rule.gives),
        );
        let body = self.expr_fault(scope.lists.as_slice(), &mut scope.names, at, rule.body);
        earlier(earlier(twice, head), earlier(earlier(needs, gives), body))
    }

    // The first fault of all rules.
    fn rules_fault(self, scope: &mut Scope<'_>) -> Option<usize>
        ensures { result ≡ name_fault self.entry.text.now (rules_of self.entry) }
    {
        // A `for`, by positions: each turn changes the scope, and a rule's parts lie below it.
        let mut fault = None;
        for at in 0..self.nodes.len() {
            let here = self.rule_fault(scope, at);
            fault = earlier(fault, here);
        }
        fault
    }

    // The first place at which a name is at fault: unknown, declared twice, of the wrong sort, or with a wrong number of arguments.
    pub fn name_fault(self) -> Option<usize>
        ensures { result ≡ name_fault self.entry.text.now (rules_of self.entry) }
    {
        let mut name_room = [0; NAME_ROOM];
        let mut list_room = [0; LIST_ROOM];
        let mut scope = Scope {
            names: Pile::over(&mut name_room),
            lists: Pile::over(&mut list_room),
        };
        self.rules_fault(&mut scope)
    }
}
