//! The line that reads a row.
ghost use Rattle.std.specs.Prelude.{◌≡◌, ◌≤◌, IfOk, IfErr, OnOk, IsTrue};
ghost use Rattle.mdb_model.specs.Answers.{plain};
ghost use Rattle.mdb_model.specs.Script.{is_session, is_table, is_key};
ghost use Rattle.mdb_model.specs.Worlds.{World};
ghost use Rattle.mdb_model.specs.declared.script.Command.TheVariants.{GetRow};
ghost use Rattle.mdb_bytes.specs.Held.{HasPageCause};
ghost use Rattle.session_rows.specs.Replies.{IsRefusal, IsOfSession};
ghost use Rattle.session_rows.specs.Serving.{no_pages, IsServed, IsAnswered};

use crate::replies::get_answer;
use mdb_bytes::Rows;
use mdb_model::bytes::{FoundValue, Key};
use mdb_model::fault::PageFault;
use mdb_model::name::{Session, Table};
use mdb_model::script::{Refusal, Reply};
use transactions::Transactions;

/// The value of a row, as the session sees it. Memory for the value is taken first. Where the rows
/// cannot be read, the session has the lock all the same.
pub fn get_row<R: Rows>(
    transactions: &mut Transactions,
    rows: &mut R,
    session: Session,
    table: Table,
    key: &Key,
) -> Result<Reply, PageFault>
    requires session { IsTrue (is_session session.0) }
    requires table { IsTrue (is_table table.0) }
    requires key { IsTrue (is_key key.now) }
    ensures answered { R.is_known rows.old → (w : World)
        → IsServed (R.held rows.old).rows transactions.old w
        → IfOk result (λ reply. IsAnswered no_pages w (GetRow session table key.now) (plain reply)
        (IsServed (R.held rows.new).rows transactions.new)) }
    ensures same { R.is_known rows.old → OnOk result (R.is_known rows.new
        × (R.held rows.new ≡ R.held rows.old)) }
    ensures refused { IfOk result (λ reply. IsRefusal reply
        → transactions.new ≡ transactions.old) }
    ensures inside { IfOk result IsOfSession }
    ensures spare { R.spare rows.old ≤ R.spare rows.new }
    ensures cause { HasPageCause (R.is_known rows.old) (R.faults rows.old) (R.faults rows.new)
        result }
    ensures quiet { IfErr result (λ fault. fault ≡ PageFault.Failed → R.reads_devices rows.old) }
    ensures follows { R.follows rows.old rows.new }
{
    let Ok(mut room) = FoundValue::room(transactions.alloc()) else {
        return Ok(Reply::Refused(Refusal::MemoryWanting));
    };
    let found = transactions.get(rows, session, table, key, &mut room);
    get_answer(found, FoundValue::new(room))
}
