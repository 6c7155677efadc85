ghost use Rattle.std.specs.Prelude.{◌≡◌, ◌+◌, ◌<◌, ◌≤◌, true, [], map, length, pos};
ghost use Rattle.language.specs.Terms.{near};
ghost use Rattle.records.specs.Laying.{columns_of, owed_of};
ghost use Rattle.naming.specs.Reaches.{scope_of};
ghost use Rattle.naming.specs.Sides.{raw_item, side_left, raw_condition, conditions_left};
ghost use Rattle.records.specs.Tables as lists;
ghost use Rattle.naming.specs.Resolving.{signed, factor_of, atom_of, item_of, condition_of, conditions_of};
ghost use Rattle.resolving.specs.Making.{Added, Listing, Formed, ItemsAlone, ConditionsAlone};
ghost use Rattle.grammar.specs.Weights.{condition_weight, conditions_weight};

use crate::context::Scoped;
use crate::lookups::slot;
use crate::signs::comparison_of;
use letters::{Kind, Token};
use naming::{Condition as Compared, Conditions, Items, Signed};
use records::{Atom, Condition, Item, Laid, Stretch};

// How often an item is taken, by the factor that is written or not.
fn factor_of(read: Signed) -> i32
    requires { factor_of read.item.factor read.item.atom < 1000000 }
    ensures { result ≡ signed read.minus (pos (factor_of read.item.factor read.item.atom)) }
{
    let written = match read.item.factor {
        Some(factor) => factor.value,
        None if read.item.atom.is(Kind::Numeral) => read.item.atom.value,
        None => 1,
    };
    let times = i32::try_from(written).unwrap();
    if read.minus { -times } else { times }
}

impl Scoped<'_, '_> {
    // What an item takes so many times.
    #[tactic(auto, unfolding(letters::specs::Kinds::same_kind))]
    fn atom_of(self, token: Token) -> Atom
        ensures { lists.atom_of result ≡ atom_of self.entry.sheet.text.now (scope_of self.entry.sheet self.entry.names.now []) token }
    {
        match token.kind {
            Kind::Name => Atom::Named(slot(self.sheet, self.names, token)),
            Kind::TheResult => Atom::TheResult,
            _ => Atom::One,
        }
    }

    fn item_of(self, read: Signed) -> Item
        requires { factor_of read.item.factor read.item.atom < 1000000 }
        ensures item { lists.item_of result ≡ item_of self.entry.sheet.text.now (scope_of self.entry.sheet self.entry.names.now []) (raw_item read) }
        ensures near { near result.factor ≡ true }
    {
        Item {
            factor: factor_of(read),
            atom: self.atom_of(read.item.atom),
        }
    }

    // The items of a side of the sheet go into their table; where they lie is given. Conditions and parameters do so too, each with what it takes to make one, which a closure for all three would have to promise.
    fn side(self, side: Items<'_>, tables: &mut Laid<'_>) -> Stretch
        requires sheet { side.sheet ≡ self.sheet }
        requires room { length (columns_of tables.old).items.entries + length (side_left side) ≤ (columns_of tables.old).items.room }
        ensures added { Added lists.item_of (map (item_of self.entry.sheet.text.now (scope_of self.entry.sheet self.entry.names.now [])) (side_left side.entry)) (columns_of tables.old).items.entries (columns_of tables.new).items.entries }
        ensures stretch { (result.from ≡ length (columns_of tables.old).items.entries) × (result.to ≡ length (columns_of tables.new).items.entries) }
        ensures others { ItemsAlone (columns_of tables.old) (columns_of tables.new) }
        ensures owed { owed_of tables.new ≡ owed_of tables.old }
    {
        let from = tables.count::<Item>();
        for signed in side {
            tables.push(self.item_of(signed)).unwrap();
        }
        Stretch {
            from,
            to: tables.count::<Item>(),
        }
    }

    // A condition of the sheet, its items in their table.
    fn condition(self, condition: Compared<'_>, tables: &mut Laid<'_>) -> Condition
        requires sheets { (condition.left.sheet ≡ self.sheet) × (condition.right.sheet ≡ self.sheet) }
        requires room { length (columns_of tables.old).items.entries + condition_weight (raw_condition condition) ≤ (columns_of tables.old).items.room }
        ensures formed { Formed (condition_of self.entry.sheet.text.now (scope_of self.entry.sheet self.entry.names.now []) (raw_condition condition.entry)) result (columns_of tables.old).items.entries (columns_of tables.new).items.entries }
        ensures size { length (columns_of tables.new).items.entries ≤ length (columns_of tables.old).items.entries + condition_weight (raw_condition condition.entry) }
        ensures others { ItemsAlone (columns_of tables.old) (columns_of tables.new) }
        ensures owed { owed_of tables.new ≡ owed_of tables.old }
    {
        let left = self.side(condition.left, tables);
        let right = self.side(condition.right, tables);
        Condition {
            place: condition.left.place(),
            comparison: comparison_of(condition.comparison),
            left,
            right,
        }
    }

    // Conditions of the sheet go into their table, their items into theirs; where they lie is given.
    pub(crate) fn conditions(self, conditions: Conditions<'_>, tables: &mut Laid<'_>) -> Stretch
        requires sheet { conditions.sheet ≡ self.sheet }
        requires conditions { length (columns_of tables.old).conditions.entries + conditions_weight (conditions_left conditions) ≤ (columns_of tables.old).conditions.room }
        requires items { length (columns_of tables.old).items.entries + conditions_weight (conditions_left conditions) ≤ (columns_of tables.old).items.room }
        ensures listing { Listing (conditions_of self.entry.sheet.text.now (scope_of self.entry.sheet self.entry.names.now []) (conditions_left conditions.entry)) (columns_of tables.old).conditions.entries (columns_of tables.new).conditions.entries (columns_of tables.old).items.entries (columns_of tables.new).items.entries }
        ensures stretch { (result.from ≡ length (columns_of tables.old).conditions.entries) × (result.to ≡ length (columns_of tables.new).conditions.entries) }
        ensures size { length (columns_of tables.new).items.entries ≤ length (columns_of tables.old).items.entries + conditions_weight (conditions_left conditions.entry) }
        ensures others { ConditionsAlone (columns_of tables.old) (columns_of tables.new) }
        ensures owed { owed_of tables.new ≡ owed_of tables.old }
    {
        let from = tables.count::<Condition>();
        for condition in conditions {
            let resolved = self.condition(condition, tables);
            tables.push(resolved).unwrap();
        }
        Stretch {
            from,
            to: tables.count::<Condition>(),
        }
    }
}
