ghost use Rattle.std.specs.Prelude.{◌≡◌, ◌++◌, Some, IfOk, string_bytes, OnOk};
ghost use Rattle.showing.specs.Kinds.{kind_text, joint, kinds_text};

use crate::kinds::{KINDS, Kinds};
use letters::Kind;
use std::alloc::{AllocError, Global};
use std::fmt;

// A kind in words: a keyword or a sign as it is written, in quotes.
#[derive(Clone, Copy)]
struct InWords {
    kind: Kind,
}

impl fmt::Display for InWords {
    ghost output = { λ shown. Some (kind_text shown.kind) };

    #[tactic(auto, unfolding(letters::specs::Kinds::same_kind))]
    fn fmt<W: fmt::Write>(&self, f: &mut fmt::Formatter<W>) -> fmt::Result {
        match self.kind {
            Kind::Name => f.write_str("a name"),
            Kind::Numeral => f.write_str("a numeral"),
            Kind::End => f.write_str("the end of the text"),
            kind => write!(f, "\"{kind}\""),
        }
    }
}

// What stands after a kind, where so many follow.
fn joint_text(left: usize) -> &'static str
    ensures { result.now ≡ joint left }
{
    match left {
        0 => "",
        1 => " or ",
        _ => ", ",
    }
}

fn push_kind(text: &mut String, kind: Kind, left: usize) -> Result<(), AllocError>
    ensures { OnOk result (string_bytes text.new ≡ string_bytes text.old ++ (kind_text kind ++ joint left)) }
{
    write!(text, "{}{}", InWords { kind }, joint_text(left))
}

// The kinds in words, as `a name, a numeral or "("`; nothing where there are none. A `for`, since a push can fail; `left` says how many kinds follow, which each joint needs.
pub fn kinds_text(heap: Global, kinds: Kinds) -> Result<String, AllocError>
    ensures { IfOk result (λ s. string_bytes s ≡ kinds_text kinds) }
{
    let mut text = String::new(heap);
    let mut left = kinds.count();
    for kind in KINDS {
        if kinds.has(kind) {
            left -= 1;
            push_kind(&mut text, kind, left)?;
        }
    }
    Ok(text)
}
