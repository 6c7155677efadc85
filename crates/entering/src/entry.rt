ghost use Rattle.language.specs.Drafts.{Sheet, marked};
ghost use Rattle.language.specs.Entering.{values_for, run_if_callable};
ghost use Rattle.entering.specs.Inputs.{Ready, Answered};

use crate::allowing::allowed;
use crate::conditions::first_broken;
use crate::gathering::gather;
use crate::slots::entry_at;
use language::{End, Part, Refusal};
use pile::Pile;
use running::{Program, run_rule};

// No rule has more parameters: 4 lists and 8 numbers.
const MOST_PARAMS: usize = 12;

// Room for the values of all calls that may be open at once.
const MOST_VALUES: usize = 24_012;

// Runs a rule of the sheet that the records hold, with so many rules, on what a run is given. A refusal leaves the cells as they are, a stop those written so far.
pub fn enter(
    program: Program<'_, '_>,
    rules: usize,
    rule: usize,
    fuel: u32,
    numbers: &[i32],
    parts: &[Part],
    cells: &mut [i32],
) -> Result<End, Refusal>
    requires { ∥ ((sheet : Sheet) × Ready program rules sheet) ∥₁ }
    ensures { (sheet : Sheet) → Ready program.entry rules sheet → Answered result cells.old cells.new (run_if_callable (values_for sheet.rules rule numbers.now parts.now) sheet (marked program.entry.dropped.now) rule fuel numbers.now parts.now cells.old) }
{
    if rule >= rules {
        return Err(Refusal::Call);
    }
    let Some(entry) = entry_at(program.records, rule) else {
        return Err(Refusal::Call);
    };
    let mut slots = [0; MOST_PARAMS];
    let mut values = Pile::over(&mut slots);
    let taken = entry.params;
    let Some(()) = gather(
        program.records,
        taken.from,
        taken.to,
        numbers,
        parts,
        &mut values,
    ) else {
        return Err(Refusal::Call);
    };
    if !allowed(program.low, program.high, fuel, numbers, parts, cells) {
        return Err(Refusal::Input);
    }
    let needs = entry.needs;
    let broken = first_broken(program.records, needs.from, needs.to, 0, values.as_slice());
    if let Some(named) = broken {
        return Err(Refusal::Needs { named });
    }
    let mut space = [0; MOST_VALUES];
    Ok(run_rule(
        program,
        rule,
        values.as_slice(),
        parts,
        fuel,
        cells,
        &mut space,
    ))
}
