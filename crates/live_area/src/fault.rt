//! Why a commit was not made.
use mdb_model::fault::Damage;
use thiserror::Error;

/// Why a commit was not made, or may have been.
#[derive(Clone, Copy, Debug, PartialEq, Eq, Error)]
pub enum CommitFault {
    /// The log that no backup holds would fill the ring. Nothing was changed.
    #[error("the log that is not saved leaves no room")]
    Full,
    /// The log that a restart reads would fill the ring: a savepoint makes room. Nothing was
    /// changed.
    #[error("the log from the last savepoint on leaves no room")]
    Pinned,
    /// A device failed. The next restart finds whether the commit was made.
    #[error("a device failed")]
    Failed,
    /// Pages are out of their form, or a savepoint leaves too few spare pages.
    #[error("damage on {device:?}, page {page}", device = .0.device, page = .0.page)]
    Damaged(Damage),
}
