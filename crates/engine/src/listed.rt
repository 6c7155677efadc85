use language::Duty;

// How an obligation stands: what is owed, where, and whether it is settled.
#[derive(Clone, Copy, Debug, PartialEq, Eq)]
pub struct Listed {
    pub duty: Duty,
    pub place: usize,
    pub settled: bool,
}
