ghost use Rattle.std.specs.Prelude.{◌≡◌, Some};
ghost use Rattle.domains.specs.Faults.{number, word, fault_of, deeper, raised, written};

use std::error::Error;
use std::fmt;

// Why a certificate is not good, in the order in which domains test.
#[derive(Clone, Copy, Debug, PartialEq, Eq)]
pub enum Reason {
    Shape = 1,
    Number = 2,
    Kind = 3,
    Width = 4,
    Sum = 5,
    Case = 6,
}

impl Reason {
    pub fn number(self) -> u8
        ensures { result ≡ number self }
    {
        self as u8
    }

    pub fn word(self) -> &'static str
        ensures { result.now ≡ word self }
    {
        match self {
            Reason::Shape => "shape",
            Reason::Number => "number",
            Reason::Kind => "kind",
            Reason::Width => "width",
            Reason::Sum => "sum",
            Reason::Case => "case",
        }
    }
}

// Display and Error are by hand in this file: what is printed is promised, which a derive of thiserror does not do.
impl fmt::Display for Reason {
    ghost output = { λ reason. Some (word reason) };

    fn fmt<W: fmt::Write>(&self, f: &mut fmt::Formatter<W>) -> fmt::Result {
        f.write_str(self.word())
    }
}

// A fault of the domain asked, at depth 0, or of one that lies `depth` layers below it.
#[derive(Clone, Copy, Debug, PartialEq, Eq)]
pub struct Fault {
    pub reason: Reason,
    pub depth: u8,
}

impl Fault {
    // A fault of the domain asked.
    pub fn new(reason: Reason) -> Fault
        ensures { result ≡ fault_of reason }
    {
        Fault { reason, depth: 0 }
    }

    // The same fault as the layer above sees it.
    fn deeper(self) -> Fault
        ensures { result ≡ deeper self }
    {
        Fault {
            depth: self.depth.saturating_add(1),
            ..self
        }
    }
}

// The number of the reason, its word and the depth.
impl fmt::Display for Fault {
    ghost output = { λ fault. Some (written fault) };

    fn fmt<W: fmt::Write>(&self, f: &mut fmt::Formatter<W>) -> fmt::Result {
        let number = self.reason.number();
        let word = self.reason.word();
        let depth = self.depth;
        write!(f, "{number} {word} depth {depth}")
    }
}

impl Error for Fault {}

// What a layer makes of an answer from below: a fault goes up with its reason whole and its depth raised by one, up to 255.
pub trait Raise {
    ghost up: { Self → Self };

    fn raise(self) -> Self
        ensures { result ≡ up self };
}

impl Raise for Result<(), Fault> {
    ghost up = { raised };

    fn raise(self) -> Result<(), Fault> {
        self.map_err(Fault::deeper)
    }
}
