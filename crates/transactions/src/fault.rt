//! Why a line of a session is refused, or fails.
ghost use Rattle.std.specs.Prelude.{◌≡◌};
ghost use Rattle.transactions.specs.Faults.{fault_of};
ghost use Rattle.transactions.specs.declared.fault.TxFault.TheVariants.{Page};

use mdb_model::fault::PageFault;
use mdb_model::name::Session;
use record_locks::LockFault;
use thiserror::Error;

/// Why a line of a session is refused, or fails.
#[derive(Clone, Copy, Debug, PartialEq, Eq, Error)]
pub enum TxFault {
    /// This session has a lock that conflicts with the line's.
    #[error("session {} holds a lock that conflicts", .0.0)]
    Locked(Session),
    /// A commit of the session's changes would have so many bytes.
    #[error("a commit would have {0} bytes")]
    TooLarge(u64),
    /// Out of memory.
    #[error("out of memory")]
    Memory,
    /// The blocks of the data area do not suffice.
    #[error("the data area is full")]
    Full,
    /// The rows could not be read.
    #[error(transparent)]
    Page(PageFault),
}

// A lock that is not given, as the fault of a line.
impl From<LockFault> for TxFault {
    ghost from_gives = { λ lock e. e ≡ fault_of lock };

    fn from(lock: LockFault) -> TxFault {
        match lock {
            LockFault::Held(holder) => TxFault::Locked(holder),
            LockFault::Memory => TxFault::Memory,
        }
    }
}

// Rows that could not be read, as the fault of a line.
impl From<PageFault> for TxFault {
    ghost from_gives = { λ fault e. e ≡ Page fault };

    fn from(fault: PageFault) -> TxFault {
        TxFault::Page(fault)
    }
}
