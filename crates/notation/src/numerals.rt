ghost use Rattle.std.specs.Prelude.{◌≡◌, IfOk, IfErr, IfSome, IfNone, decimal, map};
ghost use Rattle.std.specs.List.{join_with_byte};
ghost use Rattle.notation.specs.Misreadings.{NoNumber, WritesNone};

use crate::misread::Misread;
use std::alloc::{AllocError, Global};
use std::fmt::Display;
use std::str::FromStr;

// The value that a word writes, if it writes one in the form that it is printed in.
pub fn read_value<T>(heap: Global, word: &str) -> Result<Option<T>, AllocError>
where
    T: FromStr + Display + Drop,
    T::Err: Drop,
    ensures reads { IfOk result (λ found. IfSome found (λ value. IfSome (T.output value) (λ text. word.now ≡ text))) }
    ensures none { IfOk result (λ found. IfNone found (WritesNone T.from_str_gives T.output word.now)) }
{
    let Ok(value) = word.parse::<T>() else {
        return Ok(None);
    };
    let written = value.to_string(heap)?;
    if written.as_str() != word {
        return Ok(None);
    }
    Ok(Some(value))
}

// The number that a word writes; it is refused where it writes none.
pub fn read_u32(heap: Global, word: &str) -> Result<u32, Misread>
    ensures reads { IfOk result (λ n. word.now ≡ decimal n) }
    ensures refuses { IfErr result (λ e. NoNumber e word.now) }
{
    let n = read_value::<u32>(heap, word)?.ok_or(Misread::Number)?;
    Ok(n)
}

// The numbers that a text writes, with a blank between each two.
pub fn read_numbers(heap: Global, text: &str) -> Result<Vec<u32>, Misread>
    ensures { IfOk result (λ numbers. text.now ≡ join_with_byte 32 (map decimal numbers.items)) }
{
    let mut numbers = Vec::new(heap);
    for word in text.split(' ') {
        let n = read_u32(heap, word)?;
        numbers.push(n)?;
    }
    Ok(numbers)
}
