ghost use Rattle.std.specs.Prelude.{◌≡◌};
ghost use Rattle.language.specs.Drafts as Drafts;
ghost use Rattle.language.specs.Entering.{book_run, full_run};
ghost use Rattle.language.specs.Promise.{Promise};
ghost use Rattle.entering.specs.Inputs.{Answered};
ghost use Rattle.engine.specs.Clearing.{BookOf};

use super::Book;
use entering::enter;
use language::{End, Part, Refusal};
use running::Program;

impl Book<'_> {
    // What a run of the book runs, with these checks dropped.
    fn program<'s>(&'s self, dropped: &'s [bool]) -> Program<'s, 's>
        ensures records { result.records.now ≡ self.now.records.now }
        ensures low { result.low ≡ self.now.low }
        ensures high { result.high ≡ self.now.high }
        ensures dropped { result.dropped.now ≡ dropped.now }
    {
        Program {
            records: self.records,
            low: self.low,
            high: self.high,
            dropped,
        }
    }

    // Runs a rule, by its number, with what is settled dropped. A closed book refuses first, then what is wrong with the call, the input and the needs. A refusal leaves the cells as they are, a stop those written so far. What the definition's run answers, this answers, and the soundness promise holds of the definition's runs.
    pub fn run(
        &self,
        rule: usize,
        fuel: u32,
        numbers: &[i32],
        parts: &[Part],
        cells: &mut [i32],
    ) -> Result<End, Refusal>
        ensures answers { (b : Drafts.Book) → BookOf self.now b → Answered result cells.old cells.new (book_run b rule fuel numbers.now parts.now cells.old) }
        ensures promise { Promise }
    {
        if let Some(refusal) = self.closed() {
            return Err(refusal);
        }
        let program = self.program(&self.marks);
        enter(program, self.sizes.rules, rule, fuel, numbers, parts, cells)
    }

    // The same run, but every check is made.
    pub fn full_run(
        &self,
        rule: usize,
        fuel: u32,
        numbers: &[i32],
        parts: &[Part],
        cells: &mut [i32],
    ) -> Result<End, Refusal>
        ensures answers { (b : Drafts.Book) → BookOf self.now b → Answered result cells.old cells.new (full_run b rule fuel numbers.now parts.now cells.old) }
        ensures promise { Promise }
    {
        if let Some(refusal) = self.closed() {
            return Err(refusal);
        }
        let program = self.program(&[]);
        enter(program, self.sizes.rules, rule, fuel, numbers, parts, cells)
    }
}
