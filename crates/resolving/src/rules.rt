ghost use Rattle.std.specs.Prelude.{◌≡◌, ◌+◌, ◌≤◌, false, [], map, length};
ghost use Rattle.grammar.specs.Raw as raw;
ghost use Rattle.grammar.specs.Weights.{rule_weight, weight_of};
ghost use Rattle.pile.specs.Entries.{entries, room};
ghost use Rattle.naming.specs.Reaches.{tokens_of, sheet_of};
ghost use Rattle.naming.specs.Sources.{rules_of};
ghost use Rattle.resolving.specs.Making.{Fit};
ghost use Rattle.records.specs.Laying.{columns_of, owed_of};
ghost use Rattle.resolving.specs.Growing.{Roomy};
ghost use Rattle.resolving.specs.Ruling.{rule_by, RuleMade, RulesMade, Empty, Ample, SameRooms};

use crate::context::{Context, Scoped};
use crate::heads::params_at;
use crate::nodes::place;
use letters::{Kind, MOST_BYTES};
use naming::{LIST_ROOM, NAME_ROOM, Ruled, Scope, Written};
use pile::Pile;
use records::{Entry, Laid};

impl Context<'_, '_, '_> {
    // A rule goes into the tables, its body at a position below `top`; its entry is given.
    fn rule(&self, ruled: Ruled, top: usize, scope: &mut Scope<'_>, tables: &mut Laid<'_>) -> Entry
        requires top { top ≤ 16384 }
        requires roomy { Roomy (rule_weight (rule_by self.now.sheet top ruled)) (columns_of tables.old) }
        requires params { length (columns_of tables.old).params.entries + rule_weight (rule_by self.now.sheet top ruled) ≤ (columns_of tables.old).params.room }
        ensures made { RuleMade (sheet_of self.now.sheet) (rule_by self.now.sheet top ruled) result (columns_of tables.old) (columns_of tables.new) }
        ensures owed { owed_of tables.new ≡ owed_of tables.old }
    {
        let sheet = self.sheet;
        // A name that is declared twice was told before, so the fault is no news.
        let _ = scope.enter(sheet.params(ruled.params));
        let params = params_at(sheet, ruled.params, tables);
        let scoped = Scoped {
            sheet,
            names: scope.names.as_slice(),
        };
        let needs = scoped.conditions(sheet.optional(Kind::Needs, ruled.needs), tables);
        let gives = scoped.conditions(sheet.optional(Kind::Gives, ruled.gives), tables);
        let context = Context {
            sheet,
            rules: self.rules,
            lists: scope.lists.as_slice(),
        };
        let body = context.expr(&mut scope.names, top, ruled.body, tables);
        Entry {
            place: place(sheet, ruled.keyword),
            params,
            needs,
            gives,
            body,
        }
    }

    // All rules go into the tables, which are empty, rule after rule.
    fn all_rules(&self, scope: &mut Scope<'_>, tables: &mut Laid<'_>)
        requires empty { Empty (columns_of tables.old) }
        requires ample { Ample (weight_of (rules_of self.now.sheet)) (columns_of tables.old) }
        ensures made { RulesMade (sheet_of self.now.sheet) (rules_of self.now.sheet) (columns_of tables.new) }
        ensures rooms { SameRooms (columns_of tables.old) (columns_of tables.new) }
        ensures owed { owed_of tables.new ≡ owed_of tables.old }
    {
        let sheet = self.sheet;
        // By positions: a rule's parts lie below its own.
        for at in 0..sheet.nodes.len() {
            if let Some(ruled) = sheet.rule(at) {
                let entry = self.rule(ruled, at, scope, tables);
                tables.push(entry).unwrap();
            }
        }
    }
}

// The tokens of the rules' names, in the order of the rules.
fn rule_names(sheet: Written<'_>, names: &mut Pile<'_, usize>)
    requires { 16384 ≤ room names.old }
    ensures { tokens_of sheet.entry (entries names.new) ≡ map (λ (r : raw.Rule). r.name) (rules_of sheet.entry) }
{
    names.fall_back(0);
    // By positions, as `rule` is read at one.
    for at in 0..sheet.nodes.len() {
        if let Some(ruled) = sheet.rule(at) {
            names.push(ruled.name).unwrap();
        }
    }
}

// A written sheet resolved into tables in which nothing lies yet.
pub fn resolve(sheet: Written<'_>, tables: &mut Laid<'_>)
    requires fit { Fit sheet }
    requires empty { Empty (columns_of tables.old) }
    requires ample { Ample (weight_of (rules_of sheet)) (columns_of tables.old) }
    ensures made { RulesMade (sheet_of sheet.entry) (rules_of sheet.entry) (columns_of tables.new) }
    ensures rooms { SameRooms (columns_of tables.old) (columns_of tables.new) }
    ensures owed { owed_of tables.new ≡ owed_of tables.old }
{
    let mut rule_room = [0; MOST_BYTES];
    let mut name_room = [0; NAME_ROOM];
    let mut list_room = [0; LIST_ROOM];
    let mut rules = Pile::over(&mut rule_room);
    let mut scope = Scope {
        names: Pile::over(&mut name_room),
        lists: Pile::over(&mut list_room),
    };
    rule_names(sheet, &mut rules);
    let context = Context {
        sheet,
        rules: rules.as_slice(),
        lists: &[],
    };
    context.all_rules(&mut scope, tables);
}
