//! Why a lock is not given.
use mdb_model::name::Session;
use thiserror::Error;

/// Why a lock is not given.
#[derive(Clone, Copy, Debug, PartialEq, Eq, Error)]
pub enum LockFault {
    /// This session has a lock that conflicts with it.
    #[error("session {} holds a lock that conflicts", .0.0)]
    Held(Session),
    /// Out of memory.
    #[error("out of memory")]
    Memory,
}
