ghost use Rattle.std.specs.Prelude.{◌≡◌, ℕ, List, Some, Option};
ghost use Rattle.rows.specs.declared.row.Row.{Row};
ghost use Rattle.provers.specs.Proposals.{Short, answer, filled};

use rows::Question;

// No proposal has more numbers.
pub const MOST_NUMBERS: usize = 128;

// A prover, by its meaning: a certificate that it proposes for each question, or none. Nobody has to believe it.
pub trait Prover {
    ghost proposal: { Self → List Row → Row → Option (List ℕ) };

    // How many numbers it wrote at the buffer's front, or none where it proposes none or more than the buffer holds; what is not written stays as it was.
    // Asking changes no proposal. The buffer is lent, so that asking allocates nothing.
    fn ask(&self, question: Question<'_>, buffer: &mut [u32]) -> Option<usize>
        ensures count { result ≡ answer (proposal self.now question.entry.facts.now question.entry.goal.now) buffer.old }
        ensures after { buffer.new ≡ filled (proposal self.now question.entry.facts.now question.entry.goal.now) buffer.old }
        ensures same { proposal self.exit.now ≡ proposal self.entry.now };

    ghost short: { (s : Self) (facts : List Row) (goal : Row) → Short (proposal s facts goal) };
}

// Writes a proposal of these numbers, as `ask` does.
pub fn offer(numbers: &[u32], buffer: &mut [u32]) -> Option<usize>
    ensures count { result ≡ answer (Some numbers.now) buffer.old }
    ensures after { buffer.new ≡ filled (Some numbers.now) buffer.old }
{
    let count = numbers.len();
    if count > buffer.len() {
        return None;
    }
    buffer[0..count].copy_from_slice(numbers);
    Some(count)
}
