ghost use Rattle.std.specs.Prelude.{◌≡◌, Some};
ghost use Rattle.language.specs.Vocabulary.{refusal_number, refusal_word, refusal_place, refusal_named, refusal_reason, refusal_depth};

use domains::Fault;
use std::error::Error;
use std::fmt;

// Why a call is refused, with what each refusal gives.
#[derive(Clone, Copy, Debug, PartialEq, Eq)]
pub enum Refusal {
    // Low above 0, high below 0, or too few records.
    Range,
    // Bytes that make no token, or a token too long.
    Letter { place: usize },
    // The first token that no sheet has there.
    Grammar { place: usize },
    // A name that is unknown, declared twice, of the wrong sort, or a call with the wrong arguments.
    Name { place: usize },
    // More than there is room for.
    Full { place: usize },
    // A side, taken whole, outside its limits.
    Large { place: usize },
    // No such obligation.
    Number,
    // The domain's range does not hold the draft's.
    Narrow,
    // No proposal, or the fault of the domain.
    Unproved { place: usize, fault: Option<Fault> },
    // The first guard that is not settled.
    Closed { named: u32, place: usize },
    // No such rule, or wrong counts of numbers or lists.
    Call,
    // Fuel, a number, a cell or a part outside what is allowed.
    Input,
    // The first condition of the needs that is broken.
    Needs { named: u32 },
}

impl Refusal {
    pub fn number(self) -> u8
        ensures { result ≡ refusal_number self }
    {
        match self {
            Refusal::Range => 1,
            Refusal::Letter { .. } => 2,
            Refusal::Grammar { .. } => 3,
            Refusal::Name { .. } => 4,
            Refusal::Full { .. } => 5,
            Refusal::Large { .. } => 6,
            Refusal::Number => 7,
            Refusal::Narrow => 8,
            Refusal::Unproved { .. } => 9,
            Refusal::Closed { .. } => 10,
            Refusal::Call => 11,
            Refusal::Input => 12,
            Refusal::Needs { .. } => 13,
        }
    }

    pub fn word(self) -> &'static str
        ensures { result.now ≡ refusal_word self }
    {
        match self {
            Refusal::Range => "range",
            Refusal::Letter { .. } => "letter",
            Refusal::Grammar { .. } => "grammar",
            Refusal::Name { .. } => "name",
            Refusal::Full { .. } => "full",
            Refusal::Large { .. } => "large",
            Refusal::Number => "number",
            Refusal::Narrow => "narrow",
            Refusal::Unproved { .. } => "unproved",
            Refusal::Closed { .. } => "closed",
            Refusal::Call => "call",
            Refusal::Input => "input",
            Refusal::Needs { .. } => "needs",
        }
    }

    // The place that it gives, else 0: a refusal is shown in a line with 0 for what it does not give, so this and the numbers below are no options.
    pub fn place(self) -> usize
        ensures { result ≡ refusal_place self }
    {
        match self {
            Refusal::Letter { place }
            | Refusal::Grammar { place }
            | Refusal::Name { place }
            | Refusal::Full { place }
            | Refusal::Large { place }
            | Refusal::Unproved { place, .. }
            | Refusal::Closed { place, .. } => place,
            Refusal::Range
            | Refusal::Number
            | Refusal::Narrow
            | Refusal::Call
            | Refusal::Input
            | Refusal::Needs { .. } => 0,
        }
    }

    // The number of the obligation or condition that it names, else 0.
    pub fn named(self) -> u32
        ensures { result ≡ refusal_named self }
    {
        match self {
            Refusal::Closed { named, .. } | Refusal::Needs { named } => named,
            _ => 0,
        }
    }

    // The number of the domain's reason, else 0.
    pub fn reason(self) -> u8
        ensures { result ≡ refusal_reason self }
    {
        match self {
            Refusal::Unproved {
                fault: Some(fault),
                ..
            } => fault.reason.number(),
            _ => 0,
        }
    }

    // How far below the domain asked the fault lies, else 0.
    pub fn depth(self) -> u8
        ensures { result ≡ refusal_depth self }
    {
        match self {
            Refusal::Unproved {
                fault: Some(fault),
                ..
            } => fault.depth,
            _ => 0,
        }
    }
}

// Display and Error by hand: what is printed is promised, which a derive of thiserror does not do.
impl fmt::Display for Refusal {
    ghost output = { λ refusal. Some (refusal_word refusal) };

    fn fmt<W: fmt::Write>(&self, f: &mut fmt::Formatter<W>) -> fmt::Result {
        f.write_str(self.word())
    }
}

impl Error for Refusal {}
