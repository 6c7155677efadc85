ghost use Rattle.std.specs.Prelude.{◌≡◌, pos};
ghost use Rattle.language.specs.Comparing.{RowsFit};
ghost use Rattle.language.specs.Limits.{most_depth, term_limit};
ghost use Rattle.language.specs.Walking.{TermsFit};
ghost use Rattle.language.specs.Examples.{Worked};

// A sheet with more obligations is refused.
pub const MOST_OBLIGATIONS: usize = 128;

// The constant and the coefficients of a term lie at most so far from 0, and so does a side.
pub const TERM_LIMIT: i32 = 1_000_000;

// So many expressions may stand one in another; at the next a run stops deep.
pub const MOST_DEPTH: u32 = 2_000;

pub const MOST_FUEL: u32 = 1_000_000;

pub const LONGEST_PART: u32 = 4_096;

// The depth that a run may have. Worked sheets show it, and what sheets owe.
pub fn most_depth() -> u32
    ensures value { result ≡ most_depth }
    ensures worked { Worked }
{
    MOST_DEPTH
}

// The limit of terms and sides. Every term of the walk keeps it, and two that keep it compare by rows that keep a row's limits.
pub fn term_limit() -> i32
    ensures value { result ≡ pos term_limit }
    ensures rows { RowsFit }
    ensures terms { TermsFit }
{
    TERM_LIMIT
}
