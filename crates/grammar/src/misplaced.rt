// A token stands at this place that no sheet has there. `Unread` is what a caller is told, and has the words.
#[derive(Clone, Copy, Debug, PartialEq, Eq)]
pub struct Misplaced {
    pub place: usize,
}
