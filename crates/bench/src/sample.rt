ghost use Rattle.std.specs.Prelude.{◌<◌};

use rows::{Kind, QUANTITIES, Row};

// How large a question is.
#[derive(Clone, Copy)]
pub struct Size {
    pub facts: usize,
    pub quantities: u32,
}

// A generator of rows, always the same ones.
#[derive(Clone, Copy)]
pub struct Sample {
    state: u32,
}

impl Sample {
    pub(crate) fn new() -> Sample {
        Sample { state: 1 }
    }

    // A number below n.
    fn below(&mut self, n: u32) -> u32
        requires { 0 < n }
        ensures { result < n }
    {
        self.state = self
            .state
            .wrapping_mul(1_664_525)
            .wrapping_add(1_013_904_223);
        (self.state >> 16) % n
    }

    // Some of one quantity less some of another is at most a small number; a row has 1 to 16 quantities.
    // `as` loses nothing, since every number drawn is below 16; `try_from` would have an error that never comes.
    fn row(&mut self, quantities: u32) -> Option<Row> {
        let quantities = quantities.clamp(1, 16);
        let up = self.below(quantities) as usize;
        let down = self.below(quantities) as usize;
        let mut coefs = [0i32; QUANTITIES];
        coefs[up] = self.below(3) as i32 + 1;
        coefs[down] = -(self.below(3) as i32) - 1;
        let bound = self.below(16) as i32 - 4;
        Row::new(coefs, bound, Kind::AtMost)
    }

    // The facts of a question, and its goal.
    pub(crate) fn question(&mut self, quantities: u32, facts: &mut [Row]) -> Option<Row> {
        for fact in facts.iter_mut() {
            *fact = self.row(quantities)?;
        }
        self.row(quantities)
    }
}
