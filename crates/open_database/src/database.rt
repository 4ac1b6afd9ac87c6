//! An open database: its data area and its log, and what its sessions have locked and changed.
use live_area::LiveArea;
use mdb_bytes::GroupBuf;
use space_rule::Space;
use transactions::Transactions;

/// Who may work with an open database.
#[derive(Clone, Copy, Debug, PartialEq, Eq)]
pub enum Access {
    /// The administrator alone.
    Admin,
    /// The sessions.
    Online,
}

/// An open database.
#[derive(Drop)]
pub struct Database {
    pub access: Access,
    /// The committed rows, on pages, and the log.
    pub area: LiveArea,
    /// What the rows and the changes of the sessions need of the data area.
    pub space: Space,
    /// What the sessions have locked and changed.
    pub transactions: Transactions,
    /// Room for one group.
    pub group: GroupBuf,
}
