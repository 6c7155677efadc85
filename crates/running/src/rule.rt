ghost use Rattle.std.specs.Prelude.{◌≡◌, ◌+◌, ◌≤◌, [], length};
ghost use Rattle.language.specs.Limits.{most_fuel};
ghost use Rattle.pile.specs.Entries.{entries, room};
ghost use Rattle.running.specs.Ending.{Lent};
ghost use Rattle.running.specs.Evaluating.{Short};
ghost use Rattle.running.specs.Ruling.{RuleRuns, RuleEvals, Answers, end_by};

use crate::program::{ASTRAY, Program, Stop};
use crate::runner::{Frame, Runner};
use crate::slots::entry_at;
use language::{End, Ending, MOST_DEPTH, Part};
use pile::Pile;

// The end by what was worked out or where it stopped, with the units taken and the checks made.
fn end_by(reached: Result<i32, Stop>, steps: u32, checks: u32) -> End
    ensures { result ≡ end_by reached steps checks }
{
    match reached {
        Ok(value) => End {
            kind: Ending::Value,
            value,
            place: 0,
            steps,
            checks,
        },
        Err(stop) => End {
            kind: stop.kind,
            value: 0,
            place: stop.place,
            steps,
            checks,
        },
    }
}

impl Runner<'_, '_, '_> {
    // The value of a rule's body, where no call is open; the values of its names and its parts are given.
    fn rule(
        &mut self,
        program: Program<'_, '_>,
        rule: usize,
        values: &[i32],
        parts: &[Part],
    ) -> Result<i32, Stop>
        requires runs { ∥ RuleRuns program rule values.now parts.now self.old.fuel self.old.cells.now ∥₁ }
        requires none { entries self.old.values.now ≡ [] }
        requires short { Short parts.now }
        requires room { length values.now + 24000 ≤ room self.old.values.now }
        requires fuel { self.old.fuel ≤ most_fuel }
        requires checks { self.old.checks ≡ 0 }
        ensures evals { RuleEvals result program.entry rule values.now parts.now self.old self.new }
        ensures lent { Lent self.old self.new }
        ensures fuel { self.new.fuel ≤ self.old.fuel }
    {
        let entry = entry_at(program.records, rule).ok_or(ASTRAY)?;
        let base = self.enter(values);
        let frame = Frame {
            program,
            base,
            parts,
        };
        self.eval(frame, MOST_DEPTH, entry.body)
    }
}

// Runs a rule's body with the values of its names and the parts of its lists. The cells are written as it goes. There is room for the values of all calls that may be open at once.
pub fn run_rule(
    program: Program<'_, '_>,
    rule: usize,
    values: &[i32],
    parts: &[Part],
    fuel: u32,
    cells: &mut [i32],
    space: &mut [i32],
) -> End
    requires runs { ∥ RuleRuns program rule values.now parts.now fuel cells.old ∥₁ }
    requires short { Short parts.now }
    requires room { length values.now + 24000 ≤ length space.old }
    requires fuel { fuel ≤ most_fuel }
    ensures { Answers result cells.new program.entry rule values.now parts.now fuel cells.old }
{
    let mut pile = Pile::over(space);
    let mut runner = Runner {
        fuel,
        checks: 0,
        cells,
        values: &mut pile,
    };
    let reached = runner.rule(program, rule, values, parts);
    end_by(reached, fuel - runner.fuel, runner.checks)
}
