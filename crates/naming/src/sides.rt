ghost use Rattle.std.specs.Prelude.{◌≡◌, ◌+◌, ◌≤◌, max, length, unwrap_or, Some};
ghost use Rattle.std.specs.Iterator.{item_count};
ghost use Rattle.grammar.specs.Sheets.{sum_sign};
ghost use Rattle.grammar.specs.Stretches.{past, item_at, side_at};
ghost use Rattle.grammar.specs.Trees.{look_of};
ghost use Rattle.naming.specs.Resolving.{side_place};
ghost use Rattle.naming.specs.Sides.{raw_item, side_left, side_end, GivesItem};
ghost use Rattle.naming.specs.Sources.{source_of};

use crate::side::{Items, Signed};
use crate::written::Written;
use letters::Kind;

impl<'t> Written<'t> {
    // A plus or a minus stands at a position.
    #[tactic(auto, unfolding(letters::specs::Kinds::same_kind))]
    pub fn is_sign(self, at: usize) -> bool
        ensures { result ≡ sum_sign (look_of (source_of self.entry) at) }
    {
        matches!(self.token(at).kind, Kind::Plus | Kind::Minus)
    }

    // The item at a position, after a minus or not, and the position after it. Positions have a bound here, at `items`, `param`, `condition` and `rule_fault`, so that the position after what is read fits its type.
    #[inline(always)]
    fn item(self, minus: bool, at: usize) -> (Signed, usize)
        requires { at ≤ 16390 }
        ensures read { item_at (look_of (source_of self.entry)) minus at ≡ past (raw_item result.0) result.1 }
        ensures near { result.1 ≤ at + 3 }
    {
        let item = self.source().item_at(at);
        (Signed { minus, item }, at + item.size)
    }

    // The items of the side at a position.
    pub(crate) fn items(self, at: usize) -> Items<'t>
        requires { at ≤ 16390 }
        ensures items { side_left result ≡ (side_at (length self.entry.tokens.now) (look_of (source_of self.entry)) at).value }
        ensures end { side_end result ≡ (side_at (length self.entry.tokens.now) (look_of (source_of self.entry)) at).next }
        ensures begun { (result.next ≡ Some at) × (result.end ≡ at) }
        ensures sheet { result.sheet ≡ self.entry }
    {
        Items {
            sheet: self,
            minus: false,
            next: Some(at),
            end: at,
            rest: self.tokens.len(),
        }
    }
}

impl Items<'_> {
    // The place of the next item; 0 where there is none. Every side has one, and who asks would only take an Option apart.
    pub fn place(self) -> usize
        ensures { result ≡ side_place (side_left self.entry) }
    {
        match self.next {
            Some(at) => self.sheet.token(at).place,
            None => 0,
        }
    }

    // Where the side ends: what is wanted is the iterator after its last item, so it is driven here.
    pub(crate) fn end(self) -> usize
        ensures end { result ≡ side_end self.entry }
        ensures near { result ≤ max self.entry.end (max (unwrap_or self.entry.next 0) 16384 + 3) }
    {
        let mut items = self;
        while items.next().is_some() {}
        items.end
    }
}

impl Iterator for Items<'_> {
    type Item = Signed;

    ghost next_gives = { GivesItem };

    ghost remaining = { item_count side_left };

    // Inlined, and so is what reads the item: who goes over a side uses little of it, and to copy all of it takes longer than the rest.
    #[inline(always)]
    fn next(&mut self) -> Option<Signed> {
        let at = self.next?;
        let (item, end) = self.sheet.item(self.minus, at);
        self.minus = self.sheet.token(end).is(Kind::Minus);
        self.next = self
            .sheet
            .past_joint(self.sheet.is_sign(end), self.rest, end);
        self.end = end;
        self.rest = self.rest.saturating_sub(1);
        Some(item)
    }
}
