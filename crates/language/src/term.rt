use rows::QUANTITIES;

// A constant and a coefficient for each quantity.
#[derive(Clone, Copy, Debug, PartialEq, Eq)]
pub struct Term {
    pub constant: i32,
    pub coefs: [i32; QUANTITIES],
}
