//! How far the log is set on the rows.

/// How far the log is set on the rows.
#[derive(Clone, Copy, Debug, PartialEq, Eq)]
pub struct SetPoint {
    /// The number of the last commit that is set.
    pub commit: u64,
    /// Where the log goes on after it, in bytes.
    pub position: u64,
}
