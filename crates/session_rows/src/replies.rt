//! How the calls of a session are answered.
ghost use Rattle.std.specs.Prelude.{◌≡◌};
ghost use Rattle.session_rows.specs.Replies.{refusal_of, reply_of, got, was_put, deleted, scan_reply};

use crate::room::Room;
use mdb_model::bytes::FoundValue;
use mdb_model::fault::PageFault;
use mdb_model::script::{Refusal, Reply};
use transactions::TxFault;

// How a fault of a session's call is answered. One of pages is passed on.
fn refused(room: Room, fault: TxFault) -> Result<Reply, PageFault>
    ensures { result ≡ refusal_of room fault }
{
    match fault {
        TxFault::Locked(holder) => Ok(Reply::Refused(Refusal::Locked(holder))),
        TxFault::TooLarge(bytes) => Ok(Reply::Refused(Refusal::TransactionLarge(bytes))),
        TxFault::Memory => Ok(Reply::Refused(Refusal::MemoryWanting)),
        TxFault::Full => Ok(Reply::Refused(room.refusal())),
        TxFault::Page(fault) => Err(fault),
    }
}

/// The answer to a question for a row.
pub(crate) fn get_answer(
    found: Result<bool, TxFault>,
    value: FoundValue,
) -> Result<Reply, PageFault>
    ensures { result ≡ reply_of (got value) Room.Enough found }
{
    match found {
        Ok(true) => Ok(Reply::Found(value)),
        Ok(false) => Ok(Reply::NoRow),
        Err(fault) => refused(Room::Enough, fault),
    }
}

/// The answer to a put.
pub(crate) fn put_answer(room: Room, done: Result<(), TxFault>) -> Result<Reply, PageFault>
    ensures { result ≡ reply_of was_put room done }
{
    match done {
        Ok(()) => Ok(Reply::PutDone),
        Err(fault) => refused(room, fault),
    }
}

/// The answer to a deletion.
pub(crate) fn del_answer(room: Room, found: Result<bool, TxFault>) -> Result<Reply, PageFault>
    ensures { result ≡ reply_of deleted room found }
{
    match found {
        Ok(true) => Ok(Reply::DelDone),
        Ok(false) => Ok(Reply::NoRow),
        Err(fault) => refused(room, fault),
    }
}

/// The answer to a scan, before its rows. A lock on a table is barred, or takes memory.
pub(crate) fn scan_opened(done: Result<(), TxFault>) -> Reply
    ensures { result ≡ scan_reply done }
{
    match done {
        Ok(()) => Reply::ScanOpen,
        Err(TxFault::Locked(holder)) => Reply::Refused(Refusal::Locked(holder)),
        Err(_) => Reply::Refused(Refusal::MemoryWanting),
    }
}
