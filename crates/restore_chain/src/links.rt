//! The log area as a link, and the plan of a restoration.
use mdb_model::name::Name;

/// The log area as the last link: the commits from the first to the last. It has none where the
/// last is one less than the first.
#[derive(Clone, Copy, Debug, PartialEq, Eq)]
pub struct LogLink {
    pub name: Name,
    pub first: u64,
    pub last: u64,
}

/// What is restored.
#[derive(Clone, Copy, Debug, PartialEq, Eq)]
pub struct Plan {
    /// How many page backups stand in front.
    pub pages: u32,
    /// The number of the commit at the end.
    pub reach: u64,
}
