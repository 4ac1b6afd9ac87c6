//! The lines that change a row, or give up all changes.
ghost use Rattle.std.specs.Prelude.{◌≡◌, ◌≤◌, IfOk, IfErr, OnOk, IsTrue};
ghost use Rattle.mdb_model.specs.Answers.{plain};
ghost use Rattle.mdb_model.specs.Script.{is_session};
ghost use Rattle.mdb_model.specs.Tables.{Tables};
ghost use Rattle.mdb_model.specs.Worlds.{World};
ghost use Rattle.mdb_model.specs.declared.change.Change.TheVariants.{Put, Del};
ghost use Rattle.mdb_model.specs.declared.script.Command.TheVariants.{PutRow, DelRow, RollbackWork};
ghost use Rattle.mdb_bytes.specs.Groups.{change_fits};
ghost use Rattle.mdb_bytes.specs.Held.{HasPageCause};
ghost use Rattle.session_rows.specs.Replies.{IsRefusal, IsOfSession, ObeysRoom};
ghost use Rattle.session_rows.specs.Serving.{no_pages, IsServed, IsAnswered, RoomIs};

use crate::replies::{del_answer, put_answer};
use crate::room::Room;
use mdb_bytes::Rows;
use mdb_model::bytes::{Key, Value};
use mdb_model::fault::PageFault;
use mdb_model::name::{Session, Table};
use mdb_model::script::Reply;
use transactions::Transactions;

/// Puts a value, in the session's transaction alone. As long as open changes stand in memory it
/// reads no rows, and so never fails.
pub fn put_row<R: Rows>(
    transactions: &mut Transactions,
    rows: &mut R,
    room: Room,
    session: Session,
    table: Table,
    key: &Key,
    value: &Value,
) -> Result<Reply, PageFault>
    requires session { IsTrue (is_session session.0) }
    requires fits { IsTrue (change_fits (Put table key.now value.now)) }
    ensures answered { R.is_known rows.old → (w : World)
        → IsServed (R.held rows.old).rows transactions.old w
        → RoomIs no_pages room w (PutRow session table key.now value.now)
        → IfOk result (λ reply. IsAnswered no_pages w (PutRow session table key.now value.now)
        (plain reply) (IsServed (R.held rows.new).rows transactions.new)) }
    ensures same { rows.new ≡ rows.old }
    ensures refused { IfOk result (λ reply. IsRefusal reply
        → transactions.new ≡ transactions.old) }
    ensures inside { IfOk result IsOfSession }
    ensures room { IfOk result (ObeysRoom room) }
    ensures never { IfErr result (λ fault. ⊥) }
{
    let done = transactions.put(rows, room.suffices(), session, table, key, value);
    put_answer(room, done)
}

/// Deletes a row that the session sees, in its transaction alone. Where the rows cannot be read,
/// nothing was done.
pub fn del_row<R: Rows>(
    transactions: &mut Transactions,
    rows: &mut R,
    room: Room,
    session: Session,
    table: Table,
    key: &Key,
) -> Result<Reply, PageFault>
    requires session { IsTrue (is_session session.0) }
    requires fits { IsTrue (change_fits (Del table key.now)) }
    ensures answered { R.is_known rows.old → (w : World)
        → IsServed (R.held rows.old).rows transactions.old w
        → RoomIs no_pages room w (DelRow session table key.now)
        → IfOk result (λ reply. IsAnswered no_pages w (DelRow session table key.now) (plain reply)
        (IsServed (R.held rows.new).rows transactions.new)) }
    ensures same { R.is_known rows.old → OnOk result (R.is_known rows.new
        × (R.held rows.new ≡ R.held rows.old)) }
    ensures refused { IfOk result (λ reply. IsRefusal reply
        → transactions.new ≡ transactions.old) }
    ensures inside { IfOk result IsOfSession }
    ensures room { IfOk result (ObeysRoom room) }
    ensures spare { R.spare rows.old ≤ R.spare rows.new }
    ensures cause { HasPageCause (R.is_known rows.old) (R.faults rows.old) (R.faults rows.new)
        result }
    ensures quiet { IfErr result (λ fault. fault ≡ PageFault.Failed → R.reads_devices rows.old) }
    ensures follows { R.follows rows.old rows.new }
{
    let found = transactions.del(rows, room.suffices(), session, table, key);
    del_answer(room, found)
}

/// Gives up the session's transaction.
pub fn give_up(transactions: &mut Transactions, session: Session) -> Reply
    requires session { IsTrue (is_session session.0) }
    ensures answered { (rows : Tables) (w : World)
        → IsServed rows transactions.old w
        → IsAnswered no_pages w (RollbackWork session) (plain result)
        (IsServed rows transactions.new) }
    ensures reply { result ≡ Reply.RolledBack }
{
    transactions.rollback(session);
    Reply::RolledBack
}
