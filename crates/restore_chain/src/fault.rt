//! Why backups in a row cannot be restored.
use thiserror::Error;

/// Why backups in a row cannot be restored.
#[derive(Clone, Copy, Debug, PartialEq, Eq, Error)]
pub enum ChainFault {
    /// The first link that cannot follow those before it, counted from 1.
    #[error("link {0} cannot follow those before it")]
    Gap(u32),
    /// The wanted end lies below the commit of the last page backup, `lo`, or above the last commit
    /// that the links reach, `hi`.
    #[error("the end lies outside {lo} to {hi}")]
    Until { lo: u64, hi: u64 },
}
