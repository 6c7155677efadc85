ghost use Rattle.std.specs.Prelude.{◌≡◌, ◌+◌, ◌≤◌, length};
ghost use Rattle.grammar.specs.Raw as raw;
ghost use Rattle.grammar.specs.Trees.{raw_at, args_at};
ghost use Rattle.grammar.specs.Weights.{expr_weight, args_weight};
ghost use Rattle.pile.specs.Entries.{entries, room};
ghost use Rattle.naming.specs.Reaches.{scope_of, sheet_of};
ghost use Rattle.naming.specs.Sources.{source_of};
ghost use Rattle.records.specs.Laying.{columns_of, owed_of};
ghost use Rattle.resolving.specs.Growing.{Roomy, ExprMade, ArgsMade};

use crate::context::{Context, Scoped};
use crate::lookups::slot;
use crate::nodes::{add, place};
use crate::signs::{comparison_of, operator_of};
use grammar::Node;
use pile::Pile;
use records::{Laid, Node as Resolved};

impl Context<'_, '_, '_> {
    // The expression at a position below `top` goes into the tables; its position there is given. The names in force are the same again afterwards, with room for a name for each position below `top`, which changes with each part. Where no expression stands, which no sheet that was parsed has, it is the number 0 at 0.
    #[cycle(argument_arguments_expr)]
    pub(crate) fn expr(
        &self,
        names: &mut Pile<'_, usize>,
        top: usize,
        at: usize,
        tables: &mut Laid<'_>,
    ) -> usize
        requires names { length (entries names.old) + top ≤ room names.old }
        requires roomy { Roomy (expr_weight (raw_at (source_of self.now.sheet) top self.now.sheet.nodes.now at)) (columns_of tables.old) }
        ensures made { ExprMade (sheet_of self.now.sheet) (scope_of self.now.sheet (entries names.old) self.now.lists.now) (raw_at (source_of self.now.sheet) top self.now.sheet.nodes.now at) result (columns_of tables.old) (columns_of tables.new) }
        ensures names { (entries names.new ≡ entries names.old) × (room names.new ≡ room names.old) }
        ensures owed { owed_of tables.new ≡ owed_of tables.old }
    {
        let sheet = self.sheet;
        let Some(node) = sheet.node(top, at) else {
            return add(tables, Resolved::Num { place: 0, value: 0 });
        };
        match node {
            Node::Blank | Node::NoArgs | Node::Arg { .. } | Node::Rule { .. } => add(
                tables,
                Resolved::Num { place: 0, value: 0 },
            ),
            Node::Num { token } => {
                let value = sheet.token(token).value;
                let place = place(sheet, token);
                add(tables, Resolved::Num { place, value })
            }
            Node::Name { token } => {
                let slot = slot(sheet, names.as_slice(), sheet.token(token));
                let place = place(sheet, token);
                add(tables, Resolved::Name { place, slot })
            }
            Node::Calc { sign, left, right } => {
                let left = self.expr(names, at, left, tables);
                let right = self.expr(names, at, right, tables);
                let operator = operator_of(sheet.token(sign));
                let place = place(sheet, sign);
                add(
                    tables,
                    Resolved::Calc {
                        place,
                        operator,
                        left,
                        right,
                    },
                )
            }
            Node::Read { name, index } => {
                let index = self.expr(names, at, index, tables);
                let list = slot(sheet, self.lists, sheet.token(name));
                let place = place(sheet, name);
                add(
                    tables,
                    Resolved::Read {
                        place,
                        number: 0,
                        list,
                        index,
                    },
                )
            }
            Node::Call { name, args } => {
                let none = add(tables, Resolved::End);
                let args = self.arguments(names, at, args, none, tables);
                let rule = slot(sheet, self.rules, sheet.token(name));
                let place = place(sheet, name);
                add(tables, Resolved::Call { place, rule, args })
            }
            Node::Bind {
                keyword,
                name,
                bound,
                body,
            } => {
                let bound = self.expr(names, at, bound, tables);
                let mark = names.mark();
                names.push(name).unwrap();
                let body = self.expr(names, at, body, tables);
                names.fall_back(mark);
                let place = place(sheet, keyword);
                add(tables, Resolved::Bind { place, bound, body })
            }
            Node::Test {
                keyword,
                sign,
                left,
                right,
                met,
                unmet,
            } => {
                let left = self.expr(names, at, left, tables);
                let right = self.expr(names, at, right, tables);
                let met = self.expr(names, at, met, tables);
                let unmet = self.expr(names, at, unmet, tables);
                let comparison = comparison_of(sheet.token(sign));
                let place = place(sheet, keyword);
                add(
                    tables,
                    Resolved::Test {
                        place,
                        comparison,
                        left,
                        right,
                        met,
                        unmet,
                    },
                )
            }
            Node::Put {
                keyword,
                name: list,
                index,
                value,
                rest,
            } => {
                let index = self.expr(names, at, index, tables);
                let value = self.expr(names, at, value, tables);
                let rest = self.expr(names, at, rest, tables);
                let site = place(sheet, list);
                let list = slot(sheet, self.lists, sheet.token(list));
                let place = place(sheet, keyword);
                add(
                    tables,
                    Resolved::Put {
                        place,
                        site,
                        number: 0,
                        list,
                        index,
                        value,
                        rest,
                    },
                )
            }
            Node::Claim {
                keyword,
                conditions,
                inner,
            } => {
                let claimed = self.expr(names, at, inner, tables);
                let scoped = Scoped {
                    sheet,
                    names: names.as_slice(),
                };
                let conditions = scoped.conditions(sheet.conditions(conditions), tables);
                let place = place(sheet, keyword);
                add(
                    tables,
                    Resolved::Claim {
                        place,
                        claimed,
                        conditions,
                    },
                )
            }
            Node::Nest { inner, .. } => self.expr(names, at, inner, tables),
        }
    }

    // The arguments at a position below `top` go into the tables, before those that stand at `after`.
    #[cycle(argument_arguments_expr)]
    fn arguments(
        &self,
        names: &mut Pile<'_, usize>,
        top: usize,
        at: usize,
        after: usize,
        tables: &mut Laid<'_>,
    ) -> usize
        requires names { length (entries names.old) + top ≤ room names.old }
        requires roomy { Roomy (args_weight (args_at (source_of self.now.sheet) top self.now.sheet.nodes.now at)) (columns_of tables.old) }
        ensures made { ArgsMade (sheet_of self.now.sheet) (scope_of self.now.sheet (entries names.old) self.now.lists.now) (args_at (source_of self.now.sheet) top self.now.sheet.nodes.now at) after result (columns_of tables.old) (columns_of tables.new) }
        ensures names { (entries names.new ≡ entries names.old) × (room names.new ≡ room names.old) }
        ensures owed { owed_of tables.new ≡ owed_of tables.old }
    {
        match self.sheet.last(top, at) {
            Some(part) => {
                let link = self.argument(names, at, part.last, after, tables);
                self.arguments(names, at, part.before, link, tables)
            }
            None => after,
        }
    }

    // One argument, before those that stand at `after`.
    #[cycle(argument_arguments_expr)]
    fn argument(
        &self,
        names: &mut Pile<'_, usize>,
        top: usize,
        at: usize,
        after: usize,
        tables: &mut Laid<'_>,
    ) -> usize
        requires names { length (entries names.old) + top ≤ room names.old }
        requires roomy { Roomy (expr_weight (raw_at (source_of self.now.sheet) top self.now.sheet.nodes.now at) + 1) (columns_of tables.old) }
        ensures made { ArgsMade (sheet_of self.now.sheet) (scope_of self.now.sheet (entries names.old) self.now.lists.now) (raw.more raw.none (raw_at (source_of self.now.sheet) top self.now.sheet.nodes.now at)) after result (columns_of tables.old) (columns_of tables.new) }
        ensures names { (entries names.new ≡ entries names.old) × (room names.new ≡ room names.old) }
        ensures owed { owed_of tables.new ≡ owed_of tables.old }
    {
        match self.sheet.bare_list(self.lists, top, at) {
            Some(list) => add(tables, Resolved::Lent { list, rest: after }),
            None => {
                let argument = self.expr(names, top, at, tables);
                add(
                    tables,
                    Resolved::Value {
                        argument,
                        rest: after,
                    },
                )
            }
        }
    }
}
