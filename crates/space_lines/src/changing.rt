//! The lines that change a row.
ghost use Rattle.std.specs.Prelude.{◌≡◌, ℕ, ◌≤◌, IfOk, IfErr, OnOk, OnErr, IsTrue};
ghost use Rattle.std.specs.FinMap.{get};
ghost use Rattle.mdb_model.specs.Answers.{plain};
ghost use Rattle.mdb_model.specs.Script.{is_session};
ghost use Rattle.mdb_model.specs.Worlds.{World};
ghost use Rattle.mdb_model.specs.declared.change.Change.TheVariants.{Put, Del};
ghost use Rattle.mdb_model.specs.declared.script.Command.TheVariants.{PutRow, DelRow};
ghost use Rattle.mdb_bytes.specs.Groups.{change_fits};
ghost use Rattle.mdb_bytes.specs.Held.{HasPageCause};
ghost use Rattle.transactions.specs.Net.{seen_length};
ghost use Rattle.transactions.specs.Ongoing.{changes_of};
ghost use Rattle.session_rows.specs.Replies.{IsRefusal, IsOfSession};
ghost use Rattle.session_rows.specs.Serving.{no_pages, IsServed, IsAnswered};
ghost use Rattle.space_rule.specs.KnownCosts.{prepared_for};
ghost use Rattle.space_rule.specs.Spaces.{known_costs};
ghost use Rattle.space_lines.specs.Counted.{AreaIsCounted, IsCounted};
ghost use Rattle.space_lines.specs.Weighed.{IsWeighed};

use crate::weighing::{del_answer, del_of, is_enough, put_of, refused, weighed};
use mdb_bytes::Rows;
use mdb_model::bytes::{Key, Value};
use mdb_model::fault::PageFault;
use mdb_model::name::{Session, Table};
use mdb_model::script::{Refusal, Reply};
use session_rows::Room;
use space_rule::Space;
use transactions::Transactions;

// The blocks that a put has to leave free past what is needed after it.
const PUT_RESERVE: u64 = 224;

// A deletion leaves them for a savepoint alone.
const DEL_RESERVE: u64 = 160;

/// Puts a value, in the session's transaction alone, where `blocks`, those of the area, suffice. It
/// reads the row only where the session has not changed it before. Where it cannot be read, nothing
/// was done.
pub fn put_row<R: Rows>(
    transactions: &mut Transactions,
    space: &mut Space,
    rows: &mut R,
    blocks: u32,
    session: Session,
    table: Table,
    key: &Key,
    value: &Value,
) -> Result<Reply, PageFault>
    requires session { IsTrue (is_session session.0) }
    requires fits { IsTrue (change_fits (Put table key.now value.now)) }
    requires blocks { blocks ≡ (known_costs space.old).blocks }
    ensures answered { AreaIsCounted → R.is_known rows.old → (w : World)
        → IsServed (R.held rows.old).rows transactions.old w
        → IsCounted (known_costs space.old) w
        → IfOk result (λ reply. IsAnswered no_pages w (PutRow session table key.now value.now)
        (plain reply) (λ after. IsServed (R.held rows.new).rows transactions.new after
        × IsCounted (known_costs space.new) after)) }
    ensures weighed { IfOk result (IsWeighed (λ before. R.is_known rows.old → before
        ≡ seen_length (get (changes_of transactions.old session.0) (table.0, key.now))
        (get (R.held rows.old).rows (table.0, key.now)))
        (known_costs space.old) (known_costs space.new) session.0 (Put table key.now value.now)) }
    ensures same { R.is_known rows.old → OnOk result (R.is_known rows.new
        × (R.held rows.new ≡ R.held rows.old)) }
    ensures refused { IfOk result (λ reply. IsRefusal reply
        → transactions.new ≡ transactions.old) }
    ensures kept { IfOk result (λ reply. IsRefusal reply → known_costs space.new
        ≡ prepared_for (known_costs space.old) (known_costs space.new).prepared) }
    ensures unread { OnErr result ((transactions.new ≡ transactions.old)
        × (known_costs space.new ≡ known_costs space.old)) }
    ensures inside { IfOk result IsOfSession }
    ensures spare { R.spare rows.old ≤ R.spare rows.new }
    ensures cause { HasPageCause (R.is_known rows.old) (R.faults rows.old) (R.faults rows.new)
        result }
    ensures quiet { IfErr result (λ fault. fault ≡ PageFault.Failed → R.reads_devices rows.old) }
    ensures follows { R.follows rows.old rows.new }
{
    let before = transactions.seen_len(rows, session, table, key)?;
    let Ok(change) = put_of(table, key, value) else {
        return Ok(Reply::Refused(Refusal::MemoryWanting));
    };
    let Ok(room) = weighed(space, blocks, session, &change, before, PUT_RESERVE) else {
        return Ok(Reply::Refused(Refusal::MemoryWanting));
    };
    match transactions.put(rows, is_enough(room), session, table, key, value) {
        Ok(()) => {
            space.note(session, &change, before);
            Ok(Reply::PutDone)
        }
        Err(fault) => refused(room, fault),
    }
}

/// Deletes a row that the session sees, in its transaction alone, where `blocks`, those of the
/// area, suffice. It reads the row only where the session has not changed it before. Where it
/// cannot be read, nothing was done.
pub fn del_row<R: Rows>(
    transactions: &mut Transactions,
    space: &mut Space,
    rows: &mut R,
    blocks: u32,
    session: Session,
    table: Table,
    key: &Key,
) -> Result<Reply, PageFault>
    requires session { IsTrue (is_session session.0) }
    requires fits { IsTrue (change_fits (Del table key.now)) }
    requires blocks { blocks ≡ (known_costs space.old).blocks }
    ensures answered { AreaIsCounted → R.is_known rows.old → (w : World)
        → IsServed (R.held rows.old).rows transactions.old w
        → IsCounted (known_costs space.old) w
        → IfOk result (λ reply. IsAnswered no_pages w (DelRow session table key.now) (plain reply)
        (λ after. IsServed (R.held rows.new).rows transactions.new after
        × IsCounted (known_costs space.new) after)) }
    ensures weighed { IfOk result (IsWeighed (λ before. R.is_known rows.old → before
        ≡ seen_length (get (changes_of transactions.old session.0) (table.0, key.now))
        (get (R.held rows.old).rows (table.0, key.now)))
        (known_costs space.old) (known_costs space.new) session.0 (Del table key.now)) }
    ensures same { R.is_known rows.old → OnOk result (R.is_known rows.new
        × (R.held rows.new ≡ R.held rows.old)) }
    ensures refused { IfOk result (λ reply. IsRefusal reply
        → transactions.new ≡ transactions.old) }
    ensures kept { IfOk result (λ reply. IsRefusal reply → known_costs space.new
        ≡ prepared_for (known_costs space.old) (known_costs space.new).prepared) }
    ensures unread { OnErr result ((transactions.new ≡ transactions.old)
        × (known_costs space.new ≡ known_costs space.old)) }
    ensures inside { IfOk result IsOfSession }
    ensures spare { R.spare rows.old ≤ R.spare rows.new }
    ensures cause { HasPageCause (R.is_known rows.old) (R.faults rows.old) (R.faults rows.new)
        result }
    ensures quiet { IfErr result (λ fault. fault ≡ PageFault.Failed → R.reads_devices rows.old) }
    ensures follows { R.follows rows.old rows.new }
{
    let before = transactions.seen_len(rows, session, table, key)?;
    if before.is_none() {
        let found = transactions.del_known(false, true, session, table, key);
        return del_answer(Room::Enough, found);
    }
    let Ok(change) = del_of(table, key) else {
        return Ok(Reply::Refused(Refusal::MemoryWanting));
    };
    let Ok(room) = weighed(space, blocks, session, &change, before, DEL_RESERVE) else {
        return Ok(Reply::Refused(Refusal::MemoryWanting));
    };
    match transactions.del_known(true, is_enough(room), session, table, key) {
        Ok(_) => {
            space.note(session, &change, before);
            Ok(Reply::DelDone)
        }
        Err(fault) => refused(room, fault),
    }
}
