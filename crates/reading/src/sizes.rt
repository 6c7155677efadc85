// How many rules a sheet that was read has, and how many obligations: both stand in the records.
#[derive(Clone, Copy, Debug, PartialEq, Eq)]
pub struct Sizes {
    pub rules: usize,
    pub owed: usize,
}
