// A list's part of the cells. Parts may overlap.
#[derive(Clone, Copy, Debug, PartialEq, Eq)]
pub struct Part {
    pub start: u32,
    pub length: u32,
}
