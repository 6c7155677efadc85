// How many entries each table has.
#[derive(Clone, Copy, Debug, PartialEq, Eq, Default)]
pub struct Counts {
    pub nodes: usize,
    pub conditions: usize,
    pub items: usize,
    pub params: usize,
    pub entries: usize,
}
