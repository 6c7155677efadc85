// Where a stretch of a table begins, and where it ends. The table lies in lent records, so it is no slice; and it is no Range, which is not Copy.
#[derive(Clone, Copy, Debug, PartialEq, Eq)]
pub struct Stretch {
    pub from: usize,
    pub to: usize,
}
