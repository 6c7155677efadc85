ghost use Rattle.std.specs.Prelude.{◌≡◌, ◌+◌, ◌<◌, ◌≤◌, length};
ghost use Rattle.pile.specs.Entries.{entries, room};
ghost use Rattle.grammar.specs.Trees.{look_of};
ghost use Rattle.naming.specs.Faults.{param_faults, head_faults};
ghost use Rattle.naming.specs.Least.{least};
ghost use Rattle.naming.specs.Reaches.{scope_of};
ghost use Rattle.naming.specs.Scopes.{empty, param_scope, head_scope};
ghost use Rattle.naming.specs.Sources.{source_of};
ghost use Rattle.naming.specs.Stretching.{left, written};

use crate::head::{Param, Params};
use crate::least::earlier;
use crate::scope::Scope;
use crate::written::Written;
use pile::Pile;

impl Written<'_> {
    // Declares a parameter, and gives the first of its names that is declared already. The two piles are no `Scope`: `Params::declare` is public and asks for less room than that has.
    fn declare_param(
        self,
        param: Param,
        names: &mut Pile<'_, usize>,
        lists: &mut Pile<'_, usize>,
    ) -> Option<usize>
        requires names { length (entries names.old) < room names.old }
        requires lists { length (entries lists.old) < room lists.old }
        ensures value { result ≡ least (param_faults self.entry.text.now (scope_of self.entry (entries names.old) (entries lists.old)) (written (look_of (source_of self.entry)) param)) }
        ensures scope { scope_of self.entry (entries names.new) (entries lists.new) ≡ param_scope (scope_of self.entry (entries names.old) (entries lists.old)) (written (look_of (source_of self.entry)) param).name (written (look_of (source_of self.entry)) param).length }
        ensures more { length (entries names.new) ≡ length (entries names.old) + 1 }
        ensures few { length (entries lists.new) ≤ length (entries lists.old) + 1 }
        ensures room { (room names.new ≡ room names.old) × (room lists.new ≡ room lists.old) }
    {
        let twice = self.declared(names.as_slice(), lists.as_slice(), self.token(param.name));
        match param.length {
            None => {
                names.push(param.name).unwrap();
                twice
            }
            Some(length) => {
                lists.push(param.name).unwrap();
                let again = self.declared(names.as_slice(), lists.as_slice(), self.token(length));
                names.push(length).unwrap();
                earlier(twice, again)
            }
        }
    }
}

impl Params<'_> {
    // Declares the parameters, and gives the first name that is declared already.
    pub fn declare(self, names: &mut Pile<'_, usize>, lists: &mut Pile<'_, usize>) -> Option<usize>
        requires names { length (entries names.old) + length (left self) ≤ room names.old }
        requires lists { length (entries lists.old) + length (left self) ≤ room lists.old }
        ensures value { result ≡ least (head_faults self.entry.sheet.text.now (scope_of self.entry.sheet (entries names.old) (entries lists.old)) (left self.entry)) }
        ensures scope { scope_of self.entry.sheet (entries names.new) (entries lists.new) ≡ head_scope (scope_of self.entry.sheet (entries names.old) (entries lists.old)) (left self.entry) }
        ensures more { length (entries names.new) ≡ length (entries names.old) + length (left self.entry) }
        ensures room { (room names.new ≡ room names.old) × (room lists.new ≡ room lists.old) }
    {
        let sheet = self.sheet;
        // A `for`: a fold's closure would owe the room at each call.
        let mut fault = None;
        for param in self {
            let twice = sheet.declare_param(param, names, lists);
            fault = earlier(fault, twice);
        }
        fault
    }
}

impl Scope<'_> {
    // The names in force become those that the parameters declare; the first that is declared twice is given.
    pub fn enter(&mut self, params: Params<'_>) -> Option<usize>
        ensures value { result ≡ least (head_faults params.entry.sheet.text.now empty (left params.entry)) }
        ensures scope { scope_of params.entry.sheet (entries self.new.names) (entries self.new.lists) ≡ head_scope empty (left params.entry) }
        ensures few { length (entries self.new.names) ≤ 16385 }
    {
        self.names.fall_back(0);
        self.lists.fall_back(0);
        params.declare(&mut self.names, &mut self.lists)
    }
}
