//! What the space rule says of a change, and how it is answered.
ghost use Rattle.std.specs.Prelude.{◌≡◌, ◌+◌, ◌≤◌, Some, IfOk, OnOk, OnErr, IsTrue};
ghost use Rattle.std.specs.Option.{ForSome};
ghost use Rattle.mdb_model.specs.Script.{is_session};
ghost use Rattle.mdb_model.specs.Tables.{place_of};
ghost use Rattle.mdb_model.specs.declared.change.Change.TheVariants.{Put, Del};
ghost use Rattle.mdb_bytes.specs.Groups.{change_fits};
ghost use Rattle.session_rows.specs.Replies.{is_enough_room, refusal_of, reply_of, deleted};
ghost use Rattle.session_rows.specs.Replies.{full_refusal as full_refusal_of};
ghost use Rattle.space_rule.specs.KnownCosts.{need_of, noted, prepared_for};
ghost use Rattle.space_rule.specs.Spaces.{known_costs};
ghost use Rattle.space_lines.specs.Weighed.{room_for};

use mdb_model::bytes::{Key, Value};
use mdb_model::change::Change;
use mdb_model::fault::{Memory, PageFault};
use mdb_model::name::{Session, Table};
use mdb_model::script::{Refusal, Reply};
use session_rows::Room;
use space_rule::Space;
use transactions::TxFault;

/// A put that shares the memory of its key and its value.
pub(crate) fn put_of(table: Table, key: &Key, value: &Value) -> Result<Change, Memory>
    ensures { IfOk result (λ change. change ≡ Put table key.now value.now) }
{
    let key = key.share()?;
    let value = value.share()?;
    Ok(Change::Put(table, key, value))
}

/// A deletion that shares the memory of its key.
pub(crate) fn del_of(table: Table, key: &Key) -> Result<Change, Memory>
    ensures { IfOk result (λ change. change ≡ Del table key.now) }
{
    let key = key.share()?;
    Ok(Change::Del(table, key))
}

// Whether so many blocks suffice where these are wanted.
fn room_of(want: u64, blocks: u32) -> Room
    ensures { result ≡ room_for want blocks }
{
    let blocks = blocks as u64;
    if blocks < want {
        Room::Full { want, blocks }
    } else {
        Room::Enough
    }
}

/// Whether the blocks suffice.
pub(crate) fn is_enough(room: Room) -> bool
    ensures { result ≡ is_enough_room room }
{
    match room {
        Room::Enough => true,
        Room::Full { .. } => false,
    }
}

/// What the space rule says of a change that has to leave so many blocks free. The memory for its
/// note is taken.
pub(crate) fn weighed(
    space: &mut Space,
    blocks: u32,
    session: Session,
    change: &Change,
    before: Option<usize>,
    reserve: u64,
) -> Result<Room, Memory>
    requires session { IsTrue (is_session session.0) }
    requires limits { IsTrue (change_fits change.now) }
    requires before { ForSome before (λ n. n ≤ 1500) }
    requires reserve { reserve ≤ 224 }
    requires blocks { blocks ≡ (known_costs space.old).blocks }
    ensures room { IfOk result (λ room. room ≡ room_for
        (need_of (noted (known_costs space.old) session.0 change.now before) + reserve) blocks) }
    ensures ok { OnOk result (known_costs space.new
        ≡ prepared_for (known_costs space.old) (Some (place_of change.now))) }
    ensures err { OnErr result (known_costs space.new
        ≡ prepared_for (known_costs space.old) (known_costs space.new).prepared) }
{
    space.prepare(change)?;
    let want = space.would_need(session, change, before) + reserve;
    Ok(room_of(want, blocks))
}

/// How a fault of a session's call is answered. One of pages is passed on.
pub(crate) fn refused(room: Room, fault: TxFault) -> Result<Reply, PageFault>
    ensures { result ≡ refusal_of room fault }
{
    match fault {
        TxFault::Locked(holder) => Ok(Reply::Refused(Refusal::Locked(holder))),
        TxFault::TooLarge(bytes) => Ok(Reply::Refused(Refusal::TransactionLarge(bytes))),
        TxFault::Memory => Ok(Reply::Refused(Refusal::MemoryWanting)),
        TxFault::Full => Ok(Reply::Refused(full_refusal(room))),
        TxFault::Page(fault) => Err(fault),
    }
}

/// The answer to a deletion.
pub(crate) fn del_answer(room: Room, found: Result<bool, TxFault>) -> Result<Reply, PageFault>
    ensures { result ≡ reply_of deleted room found }
{
    match found {
        Ok(true) => Ok(Reply::DelDone),
        Ok(false) => Ok(Reply::NoRow),
        Err(fault) => refused(room, fault),
    }
}

// The refusal of a change that does not fit. One that fits is not refused so.
fn full_refusal(room: Room) -> Refusal
    ensures { result ≡ full_refusal_of room }
{
    match room {
        Room::Enough => Refusal::DataFull { want: 0, blocks: 0 },
        Room::Full { want, blocks } => Refusal::DataFull { want, blocks },
    }
}
