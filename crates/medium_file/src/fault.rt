//! Why a medium cannot be written or read.
use mdb_model::fault::Damage;
use thiserror::Error;

/// Why a backup was not begun on a medium. Nothing was written.
#[derive(Clone, Copy, Debug, PartialEq, Eq, Error)]
pub enum MediumFault {
    /// The medium has fewer pages than the backup, which has so many.
    #[error("the medium has fewer than {pages} pages")]
    Full { pages: u32 },
    /// The medium holds a backup.
    #[error("the medium holds a backup")]
    Used,
    /// There is no such medium.
    #[error("there is no such medium")]
    Absent,
    /// A device failed.
    #[error("a device failed")]
    Failed,
}

/// Why a medium has no header to read.
#[derive(Clone, Copy, Debug, PartialEq, Eq, Error)]
pub enum HeaderFault {
    /// There is no such medium.
    #[error("there is no such medium")]
    Absent,
    /// The medium is blank.
    #[error("the medium is blank")]
    Empty,
    /// A device failed.
    #[error("a device failed")]
    Failed,
    /// The medium's gate is open before bytes that are no header.
    #[error("a medium is damaged")]
    Damaged(Damage),
}
