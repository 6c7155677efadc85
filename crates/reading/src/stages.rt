ghost use Rattle.std.specs.Prelude.{◌≡◌, ◌≤◌, length};
ghost use Rattle.reading.specs.Reading.{in_range, misspelling, misreading};
ghost use Rattle.grammar.specs.Trees.{look_of};
ghost use Rattle.naming.specs.Sources.{source_of, rules_of};
ghost use Rattle.grammar.specs.Derives.{DSheet};
ghost use Rattle.resolving.specs.Making.{Fit};
ghost use Rattle.reading.specs.Answers.{Answer, Staged, Checked};

use crate::sizes::Sizes;
use counting::count_fault;
use grammar::{Node as Raw, Tokens, Unread, parse};
use language::Refusal;
use letters::{MOST_BYTES, Misspelt, Token, cut};
use naming::Written;
use records::{Entry, Laid, Record, clear};
use resolving::resolve;
use walking::walk;

// So many records hold every sheet that is read.
pub const LEAST_RECORDS: usize = 4_096;

// The two bounds come from the caller as two numbers and go no further, so they are no type of their own.
fn in_range(low: i32, high: i32, records: usize) -> bool
    ensures { result ≡ in_range low high records }
{
    low <= 0 && high >= 0 && records >= LEAST_RECORDS
}

// The refusal of a text that is not cut into tokens. Both types are of other crates, so there is no From.
fn misspelling(why: Misspelt) -> Refusal
    ensures { result ≡ misspelling why }
{
    match why {
        Misspelt::Length => Refusal::Full { place: 0 },
        Misspelt::Letter(place) => Refusal::Letter { place },
        Misspelt::Brackets(place) => Refusal::Full { place },
    }
}

// The refusal of tokens that are no sheet. There are always nodes enough.
fn misreading(why: Unread) -> Refusal
    ensures { result ≡ misreading why }
{
    match why {
        Unread::Full => Refusal::Full { place: 0 },
        Unread::Fault(place) => Refusal::Grammar { place },
    }
}

// Names, then counts, then the walk; where all pass, the rules stand in the records with what they owe, and how many there are of both is given.
fn names_to_walk(sheet: Written<'_>, records: &mut [Record]) -> Result<Sizes, Refusal>
    requires fit { Fit sheet }
    requires derived { DSheet (look_of (source_of sheet)) (rules_of sheet) }
    requires ample { 4096 ≤ length records.old }
    ensures { Checked result sheet.entry.text.now (rules_of sheet.entry) records.new }
{
    if let Some(place) = sheet.name_fault() {
        return Err(Refusal::Name { place });
    }
    let mut tables = Laid::over(records);
    resolve(sheet, &mut tables);
    if let Some(place) = count_fault(sheet, &tables) {
        return Err(Refusal::Full { place });
    }
    walk(&mut tables)?;
    Ok(Sizes {
        rules: tables.count::<Entry>(),
        owed: tables.owed(),
    })
}

// The stages in their order, up to the first that refuses.
fn stages(text: &[u8], low: i32, high: i32, records: &mut [Record]) -> Result<Sizes, Refusal>
    ensures { Staged result text.now low high (length records.old) records.new }
{
    if !in_range(low, high, records.len()) {
        return Err(Refusal::Range);
    }
    let mut tokens = [Token::end(0); MOST_BYTES];
    let count = cut(text, &mut tokens).map_err(misspelling)?;
    let source = Tokens {
        tokens: &tokens[..count],
        end: text.len(),
    };
    let mut raw = [Raw::Blank; MOST_BYTES];
    let made = parse(source, &mut raw).map_err(misreading)?;
    let sheet = Written::new(text, source.tokens, &raw[..made]);
    names_to_walk(sheet, records)
}

// Reads a text in a range into records: the rules that it stands for stand there then, with what they owe, and how many there are of both is given; or the first stage at fault refuses, and every record is zero.
pub fn read(text: &[u8], low: i32, high: i32, records: &mut [Record]) -> Result<Sizes, Refusal>
    ensures { Answer result text.now low high records.old records.new }
{
    let answer = stages(text, low, high, records);
    if answer.is_err() {
        clear(records);
    }
    answer
}
