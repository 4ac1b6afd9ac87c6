//! Why slots cannot be read.
use thiserror::Error;

/// Why no record was read.
#[derive(Clone, Copy, Debug, PartialEq, Eq, Error)]
pub enum SlotFault {
    /// A device failed.
    #[error("a device failed")]
    Failed,
    /// No gate is open on a record.
    #[error("neither slot holds a record")]
    NoSlot,
}
