ghost use Rattle.std.specs.Prelude.{◌≡◌, map, IfOk, string_bytes};
ghost use Rattle.showing.specs.Lines.{line_of};
ghost use Rattle.showing.specs.Marks.{blank, blanks_to, Under};

use crate::line::line_at;
use std::alloc::{AllocError, Global};

// What stands under a byte: a tab under a tab, else a blank.
fn blank_under(byte: u8) -> char
    ensures { result ≡ blank byte }
{
    if byte == b'\t' { '\t' } else { ' ' }
}

fn blanks(heap: Global, bytes: &[u8]) -> Result<String, AllocError>
    ensures { IfOk result (λ s. string_bytes s ≡ map blank bytes.now) }
{
    bytes.iter().map(|byte| blank_under(*byte)).collect(heap)
}

// What brings a mark under a place of a text, written below the place's line: as wide as the line before it.
pub fn marked(heap: Global, text: &[u8], place: usize) -> Result<String, AllocError>
    ensures told { IfOk result (λ s. string_bytes s ≡ blanks_to text.now (line_of text.now place)) }
    ensures law { IfOk result (λ s. Under text.now (line_of text.now place) (string_bytes s)) }
{
    let line = line_at(text, place);
    let start = line.start;
    let place = start + line.column - 1;
    blanks(heap, &text[start..place])
}
