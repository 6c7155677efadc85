ghost use Rattle.std.specs.Prelude.{ℕ, ◌≡◌, ◌+◌, ◌*◌, ◌<◌, ◌≤◌, ◌∷◌, [], ◌++◌, IfOk, Some, length, take, drop, pos, int_le, int_lt, slice_index_or, slice_set};
ghost use Rattle.language.specs.Running.{Dropped, cell_of, part_at, spend, check, touch};
ghost use Rattle.language.specs.Drafts.{marked};
ghost use Rattle.pile.specs.Entries.{entries, room};
ghost use Rattle.running.specs.Ending.{Ends, Tame, Apart, Beside, HasCell, state_of, written, site_of};

use super::{Frame, Runner, Site};
use crate::program::{Stop, part_at};
use language::{Check, Ending, Part};

// The one function that touches a cell: its value before is given, and a value that is there is written. That the cell lies inside is the caller's to know.
fn access(cells: &mut [i32], cell: usize, value: Option<i32>) -> i32
    requires { cell < length cells.old }
    ensures value { result ≡ slice_index_or cells.old cell (pos 0) }
    ensures cells { cells.new ≡ written cells.old cell value }
{
    let before = cells[cell];
    if let Some(value) = value {
        cells[cell] = value;
    }
    before
}

// The cell of an element that a part has.
fn cell_of(part: Part, x: i32) -> usize
    requires { HasCell (cell_of part x) }
    ensures { Some result ≡ cell_of part x }
{
    part.start as usize + x as usize
}

fn not_below(x: i32) -> bool
    ensures { result ≡ int_le (pos 0) x }
{
    x >= 0
}

fn not_above(x: i32, part: Part) -> bool
    ensures { result ≡ int_lt x (pos part.length) }
{
    i64::from(x) < i64::from(part.length)
}

impl Runner<'_, '_, '_> {
    // One unit of fuel is taken.
    pub(crate) fn spend(&mut self, place: usize) -> Result<(), Stop>
        ensures ends { Ends result (spend place (state_of self.old)) self.old self.new }
        ensures beside { Beside self.old self.new }
        ensures checks { self.new.checks ≡ self.old.checks }
        ensures fuel { self.new.fuel ≤ self.old.fuel }
        ensures taken { IfOk result (λ u. self.new.fuel + 1 ≡ self.old.fuel) }
    {
        if self.fuel == 0 {
            return Err(Stop {
                kind: Ending::Spent,
                place,
            });
        }
        self.fuel -= 1;
        Ok(())
    }

    // A check that is come to: it is made, and may fail, or it is dropped.
    fn check(&mut self, dropped: bool, kind: Check, place: usize, passes: bool) -> Result<(), Stop>
        requires { self.old.checks < 4294967295 }
        ensures ends { (S : Dropped) (number : ℕ) → dropped ≡ S number → Ends result (check S kind place number passes (state_of self.old)) self.old self.new }
        ensures beside { Beside self.old self.new }
        ensures fuel { self.new.fuel ≡ self.old.fuel }
        ensures checks { self.new.checks ≤ self.old.checks + 1 }
    {
        if dropped {
            return Ok(());
        }
        self.checks += 1;
        if passes {
            return Ok(());
        }
        Err(Stop {
            kind: kind.ending(),
            place,
        })
    }

    // The two checks of an index, below first, then the cell.
    pub(crate) fn touch(
        &mut self,
        frame: Frame<'_, '_, '_>,
        site: Site,
        x: i32,
    ) -> Result<usize, Stop>
        requires tame { Tame (touch (marked frame.program.dropped.now) (site_of site) (part_at frame.parts.now site.list) x (state_of self.old)) }
        requires few { self.old.checks + 2 ≤ 4294967295 }
        ensures ends { Ends result (touch (marked frame.entry.program.dropped.now) (site_of site) (part_at frame.entry.parts.now site.list) x (state_of self.old)) self.old self.new }
        ensures beside { Beside self.old self.new }
        ensures fuel { self.new.fuel ≡ self.old.fuel }
        ensures checks { self.new.checks ≤ self.old.checks + 2 }
        ensures inside { IfOk result (λ a. a < length self.new.cells.now) }
    {
        let part = part_at(frame.parts, site.list);
        let below = frame.program.drops(site.number);
        self.check(below, Check::Below, site.place, not_below(x))?;
        let above = frame.program.drops_next(site.number);
        self.check(above, Check::Above, site.place, not_above(x, part))?;
        Ok(cell_of(part, x))
    }

    // The value of a cell.
    pub(crate) fn load(&mut self, cell: usize) -> i32
        requires { cell < length self.old.cells.now }
        ensures value { result ≡ slice_index_or self.old.cells.now cell (pos 0) }
        ensures cells { self.new.cells.now ≡ self.old.cells.now }
        ensures beside { Beside self.old self.new }
        ensures fuel { self.new.fuel ≡ self.old.fuel }
        ensures checks { self.new.checks ≡ self.old.checks }
    {
        access(self.cells, cell, None)
    }

    // A cell is another value.
    pub(crate) fn store(&mut self, cell: usize, value: i32)
        requires { cell < length self.old.cells.now }
        ensures cells { self.new.cells.now ≡ slice_set self.old.cells.now cell value }
        ensures beside { Beside self.old self.new }
        ensures fuel { self.new.fuel ≡ self.old.fuel }
        ensures checks { self.new.checks ≡ self.old.checks }
    {
        access(self.cells, cell, Some(value));
    }

    // The value of a name in force, by its slot.
    pub(crate) fn named(&self, base: usize, slot: usize) -> i32
        requires { base ≤ length (entries self.now.values.now) }
        ensures { result ≡ slice_index_or (drop base (entries self.now.values.now)) slot (pos 0) }
    {
        self.values.as_slice()[base..]
            .get(slot)
            .copied()
            .unwrap_or(0)
    }

    // A value joins those in force.
    pub(crate) fn hold(&mut self, value: i32)
        requires { length (entries self.old.values.now) < room self.old.values.now }
        ensures values { entries self.new.values.now ≡ entries self.old.values.now ++ value ∷ [] }
        ensures beside { Apart self.old self.new }
    {
        self.values.push(value).unwrap();
    }

    // The values fall back to as many.
    pub(crate) fn fall_back(&mut self, mark: usize)
        ensures values { entries self.new.values.now ≡ take mark (entries self.old.values.now) }
        ensures beside { Apart self.old self.new }
    {
        self.values.fall_back(mark);
    }
}
