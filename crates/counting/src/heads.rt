ghost use Rattle.std.specs.Prelude.{◌≡◌, length};
ghost use Rattle.std.specs.List.{slice_get};
ghost use Rattle.grammar.specs.Stretches.{params_at};
ghost use Rattle.grammar.specs.Trees.{look_of, raw_at, rule_in};
ghost use Rattle.naming.specs.Least.{least};
ghost use Rattle.naming.specs.Sources.{source_of, rules_of};
ghost use Rattle.naming.specs.Stretching.{written};
ghost use Rattle.counting.specs.Counts.{heads_over, place_if, places_of, rules_over};

use naming::{Param, Written, earlier};

const MOST_RULES: usize = 32;

const MOST_LISTS: usize = 4;

const MOST_NUMBERS: usize = 8;

// The place of a parameter's name, if it is a list, or else if it is a number. Which of the two is asked for is a flag: of a closure each clause would have to say what it answers.
fn place_of(sheet: Written<'_>, param: Param, list: bool) -> Option<usize>
    ensures { result ≡ place_if list (written (look_of (source_of sheet.entry)) param) }
{
    (param.length.is_some() == list).then_some(sheet.token(param.name).place)
}

// The place of a list of a head, or else of a number, after so many others.
fn nth_param(sheet: Written<'_>, head: usize, list: bool, skip: usize) -> Option<usize>
    ensures { result ≡ slice_get (places_of list (params_at (length sheet.entry.tokens.now) (look_of (source_of sheet.entry)) head)) skip }
{
    sheet
        .params(head)
        .filter_map(|param| place_of(sheet, param, list))
        .nth(skip)
}

// The first list or number too many of the rule at a position, if one stands there.
fn head_over(sheet: Written<'_>, at: usize) -> Option<usize>
    ensures { result ≡ least (heads_over (rule_in (source_of sheet.entry) (raw_at (source_of sheet.entry) at sheet.entry.nodes.now) (slice_get sheet.entry.nodes.now at))) }
{
    let rule = sheet.rule(at)?;
    earlier(
        nth_param(sheet, rule.params, true, MOST_LISTS),
        nth_param(sheet, rule.params, false, MOST_NUMBERS),
    )
}

// The first list or number too many of all rules.
pub(crate) fn heads_over(sheet: Written<'_>) -> Option<usize>
    ensures { result ≡ least (heads_over (rules_of sheet.entry)) }
{
    let mut over = None;
    // Here and below by positions, since a rule is read at one: its parts lie below it. A fold's closure would tell what a position adds of it alone, and not of the rules up to it.
    for at in 0..sheet.nodes.len() {
        over = earlier(over, head_over(sheet, at));
    }
    over
}

// The keyword of the first rule too many.
pub(crate) fn rules_over(sheet: Written<'_>) -> Option<usize>
    ensures { result ≡ least (rules_over (rules_of sheet.entry)) }
{
    let rule = (0..sheet.nodes.len())
        .filter_map(|at| sheet.rule(at))
        .nth(MOST_RULES)?;
    Some(sheet.token(rule.keyword).place)
}
