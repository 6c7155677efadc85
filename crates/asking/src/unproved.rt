ghost use Rattle.std.specs.Prelude.{Some};
ghost use Rattle.asking.specs.Answers.{written};

use domains::Fault;
use std::error::Error;
use std::fmt;

// Why a question is left unproved: the prover proposes nothing, or the domain finds a fault.
#[derive(Clone, Copy, Debug, PartialEq, Eq)]
pub enum Unproved {
    NoProposal,
    Faulty(Fault),
}

// Display and Error by hand: what is printed is promised, which a derive of thiserror does not do.
impl fmt::Display for Unproved {
    ghost output = { λ unproved. Some (written unproved) };

    fn fmt<W: fmt::Write>(&self, f: &mut fmt::Formatter<W>) -> fmt::Result {
        match self {
            Unproved::NoProposal => f.write_str("no proposal"),
            Unproved::Faulty(fault) => write!(f, "fault {fault}"),
        }
    }
}

impl Error for Unproved {}
