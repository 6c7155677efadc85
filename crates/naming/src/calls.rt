ghost use Rattle.std.specs.Prelude.{◌≡◌, ℕ, ◌<◌, ◌≤◌, List, length, drop, is_some, Some, None};
ghost use Rattle.std.specs.List.{slice_get};
ghost use Rattle.grammar.specs.Raw as raw;
ghost use Rattle.grammar.specs.Trees.{look_of, rule_in, rules_to, raw_at, args_at};
ghost use Rattle.naming.specs.Calls.{last_of, name_of, inner_of, own_place, ruled_of, arg_fault, named, head_at, called};
ghost use Rattle.naming.specs.Faults.{bare_list, place_of, count_args, params_of, length_at, call_faults};
ghost use Rattle.naming.specs.Reaches.{tokens_of, sheet_of};
ghost use Rattle.naming.specs.Scopes as scopes;
ghost use Rattle.naming.specs.Sources.{source_of, node_in};
ghost use Rattle.naming.specs.Stretching.{left};

use crate::least::earlier;
use crate::taken::{Last, Ruled};
use crate::written::Written;
use grammar::Node;
use letters::{Token, same_name};

impl Written<'_> {
    // The last argument at a position, and those before it.
    pub fn last(self, top: usize, at: usize) -> Option<Last>
        ensures read { result ≡ last_of (node_in top self.entry.nodes.now at) }
        ensures below { elim result [ Some n ↦ at < top | None ↦ Unit {0} ] }
    {
        match self.node(top, at) {
            Some(Node::Arg { before, last }) => Some(Last { before, last }),
            _ => None,
        }
    }

    // The token of the bare name at a position.
    pub fn name(self, top: usize, at: usize) -> Option<usize>
        ensures { result ≡ name_of (node_in top self.entry.nodes.now at) }
    {
        match self.node(top, at) {
            Some(Node::Name { token }) => Some(token),
            _ => None,
        }
    }

    // What is in the brackets at a position.
    fn inner(self, top: usize, at: usize) -> Option<usize>
        ensures read { result ≡ inner_of (node_in top self.entry.nodes.now at) }
        ensures below { elim result [ Some n ↦ at < top | None ↦ Unit {0} ] }
    {
        match self.node(top, at) {
            Some(Node::Nest { inner, .. }) => Some(inner),
            _ => None,
        }
    }

    // The place of the token of the node at a position; 0 where none stands, which no sheet that was parsed has, so that an Option would only be taken apart.
    fn own_place(self, top: usize, at: usize) -> usize
        ensures { result ≡ own_place (look_of (source_of self.entry)) (node_in top self.entry.nodes.now at) }
    {
        match self.node(top, at) {
            Some(
                Node::Num { token: t }
                | Node::Name { token: t }
                | Node::Calc { sign: t, .. }
                | Node::Read { name: t, .. }
                | Node::Call { name: t, .. }
                | Node::Bind { keyword: t, .. }
                | Node::Test { keyword: t, .. }
                | Node::Put { keyword: t, .. }
                | Node::Claim { keyword: t, .. }
                | Node::Nest { bracket: t, .. },
            ) => self.token(t).place,
            _ => 0,
        }
    }

    // The place of the expression at a position; brackets alone have that of what is in them. A loop: `successors` would go by pairs of positions and end in the last of them, in no fewer words.
    pub fn place(self, top: usize, at: usize) -> usize
        ensures { result ≡ place_of (raw_at (source_of self.entry) top self.entry.nodes.now at) }
    {
        let mut top = top;
        let mut at = at;
        while let Some(inner) = self.inner(top, at) {
            top = at;
            at = inner;
        }
        self.own_place(top, at)
    }

    // Which of these lists it is whose bare name stands at a position.
    pub fn bare_list(self, lists: &[usize], top: usize, at: usize) -> Option<usize>
        ensures { result ≡ bare_list self.entry.text.now (tokens_of self.entry lists.now) (raw_at (source_of self.entry) top self.entry.nodes.now at) }
    {
        let name = self.name(top, at)?;
        self.find(lists, self.token(name))
    }

    // The fault of the argument at a position, given the first inside it. Whether a list is wanted is a flag, as `wants_list` tells it of a parameter that is missing too.
    pub fn arg_fault(
        self,
        lists: &[usize],
        list: bool,
        top: usize,
        at: usize,
        inside: Option<usize>,
    ) -> Option<usize>
        ensures { result ≡ arg_fault list (is_some (bare_list self.entry.text.now (tokens_of self.entry lists.now) (raw_at (source_of self.entry) top self.entry.nodes.now at))) (place_of (raw_at (source_of self.entry) top self.entry.nodes.now at)) inside }
    {
        if !list {
            return inside;
        }
        if self.bare_list(lists, top, at).is_some() {
            None
        } else {
            earlier(Some(self.place(top, at)), inside)
        }
    }

    // How many arguments stand at a position. A loop: `successors` would go by pairs of positions, in no fewer words.
    fn count_args(self, top: usize, at: usize) -> usize
        ensures { result ≡ count_args (args_at (source_of self.entry) top self.entry.nodes.now at) }
    {
        let mut top = top;
        let mut at = at;
        let mut count = 0;
        while let Some(last) = self.last(top, at) {
            top = at;
            at = last.before;
            count += 1;
        }
        count
    }

    // The parts of the rule at a position. Who goes through all rules goes through the positions of the nodes, since a rule's parts lie below its own.
    pub fn rule(self, at: usize) -> Option<Ruled>
        ensures { result ≡ ruled_of (node_in (length self.entry.nodes.now) self.entry.nodes.now at) }
    {
        match self.node(self.nodes.len(), at) {
            Some(
                Node::Rule {
                    keyword,
                    name,
                    params,
                    needs,
                    gives,
                    body,
                },
            ) => {
                Some(Ruled {
                    keyword,
                    name,
                    params,
                    needs,
                    gives,
                    body,
                })
            }
            _ => None,
        }
    }

    // Where the parameters begin of the rule at a position, if it is named so.
    fn head_named(self, at: usize, token: Token) -> Option<usize>
        ensures { named self.entry.text.now (rule_in (source_of self.entry) (raw_at (source_of self.entry) at self.entry.nodes.now) (slice_get self.entry.nodes.now at)) token ≡ head_at self.entry result }
    {
        let rule = self.rule(at)?;
        same_name(self.text, self.token(rule.name), token).then_some(rule.params)
    }

    // Where the parameters begin of the first rule below a position that is named so. A loop: an adapter asks which value its closure gives, and of `head_named` only what its answer means is said.
    pub fn rule_named(self, count: usize, token: Token) -> Option<usize>
        ensures { named self.entry.text.now (rules_to (source_of self.entry) count self.entry.nodes.now) token ≡ head_at self.entry result }
    {
        for at in 0..count {
            if let Some(params) = self.head_named(at, token) {
                return Some(params);
            }
        }
        None
    }

    // Where the parameters begin of the rule that is called, if there is one that takes so many arguments.
    pub fn callee(self, token: Token, top: usize, at: usize) -> Option<usize>
        ensures { (inside : List raw.Param → List ℕ) → call_faults (params_of (sheet_of self.entry) (scopes.rule_in self.entry.text.now (sheet_of self.entry).rules token)) token (count_args (args_at (source_of self.entry) top self.entry.nodes.now at)) inside ≡ called self.entry result token inside }
    {
        let params = self.rule_named(self.nodes.len(), token)?;
        if self.params(params).number() == self.count_args(top, at) {
            Some(params)
        } else {
            None
        }
    }
}
