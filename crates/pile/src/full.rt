use thiserror::Error;

// There is no room for one entry more.
#[derive(Clone, Copy, Debug, PartialEq, Eq, Hash, Error)]
#[error("no room for one entry more")]
pub struct Full;
