//! Why a group cannot be appended.
use thiserror::Error;

/// Why a group was not appended, or may have been appended in part.
#[derive(Clone, Copy, Debug, PartialEq, Eq, Error)]
pub enum RingFault {
    /// The log that no backup holds would fill the ring; in bytes.
    #[error("{unsaved} of {size} bytes of the log are not saved")]
    Full { unsaved: u64, size: u64 },
    /// The log that a restart reads would fill the ring: a savepoint makes room.
    #[error("the log from the last savepoint on leaves no room")]
    Pinned,
    /// A device failed. The group may stand in the log or not, until it is read again.
    #[error("a device failed")]
    Failed,
}
