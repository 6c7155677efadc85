use std::alloc::{AllocError, Global};

// One rule, told apart by a letter; it has some 400 bytes, 30 expressions, 4 conditions and 5 obligations.
fn rule(text: &mut Vec<u8>, letter: u8) -> Result<(), AllocError> {
    text.extend_from_slice(b"rule price_of_")?;
    text.push(letter)?;
    text.extend_from_slice(
        b"(size[pieces], day_rate, week_rate, first, last)\n  needs 0 <= first, first < pieces\n  gives 0 <= result =\n",
    )?;
    text.extend_from_slice(
        b"    let longest_of_all = if first < last then last * 2 else first * 2 in\n",
    )?;
    text.extend_from_slice(b"    let price_of_a_day = day_rate * 2 + week_rate * 3 - 1 in\n")?;
    text.extend_from_slice(b"    put size[first] := longest_of_all in\n")?;
    text.extend_from_slice(
        b"    if first < last\n      then (price_of_a_day * 7 + longest_of_all as 0 <= result)\n      else price_of_a_day;\n\n",
    )
}

// A sheet of so many rules, 25 at most, each with a name of its own: more would owe over 128 obligations.
pub(crate) fn sheet(heap: Global, rules: u8) -> Result<Vec<u8>, AllocError> {
    let mut text = Vec::new(heap);
    for letter in (b'a'..=b'z').take(usize::from(rules)) {
        rule(&mut text, letter)?;
    }
    Ok(text)
}

// A rule with so many lets, one in another. The second is declared twice, so the sheet is refused once all of it was parsed and its names were gone through.
pub(crate) fn nested(heap: Global, lets: u32) -> Result<Vec<u8>, AllocError> {
    let mut text = Vec::new(heap);
    text.extend_from_slice(b"rule f() = ")?;
    for _ in 0..lets {
        text.extend_from_slice(b"let a=1in ")?;
    }
    text.extend_from_slice(b"a;")?;
    Ok(text)
}

// A rule with 33 expressions that owes two reads; it is told apart by two letters, and four conditions are its facts.
fn reading_rule(text: &mut Vec<u8>, group: u8, letter: u8) -> Result<(), AllocError> {
    text.extend_from_slice(b"rule price_")?;
    text.push(group)?;
    text.push(letter)?;
    text.extend_from_slice(
        b"(size[pieces], first, last, days)\n  needs 0 <= first, first < last, last < pieces, days = 7\n  = size[first] + size[last]",
    )?;
    for _ in 0..14u8 {
        text.extend_from_slice(b" + 3")?;
    }
    text.extend_from_slice(b";\n")
}

// A full sheet: 32 rules, 1,024 expressions, 128 conditions, and 128 obligations.
pub(crate) fn full(heap: Global) -> Result<Vec<u8>, AllocError> {
    let mut text = Vec::new(heap);
    for letter in b'a'..=b'z' {
        reading_rule(&mut text, b'a', letter)?;
    }
    for letter in b'a'..=b'e' {
        reading_rule(&mut text, b'b', letter)?;
    }
    text.extend_from_slice(
        b"rule all_of_it(days) needs 0 <= days gives 0 <= result, 0 <= days, result = days = days;\n",
    )?;
    Ok(text)
}
