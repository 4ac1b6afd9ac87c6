//! The line that reads all rows of a table, as the session sees it: the committed rows with its own
//! changes.
ghost use Rattle.std.specs.Prelude.{◌≡◌, ◌≤◌, IfOk, IfErr, OnOk, IsTrue};
ghost use Rattle.mdb_model.specs.Script.{is_session, is_table};
ghost use Rattle.mdb_model.specs.Tables.{Tables, place_of};
ghost use Rattle.mdb_model.specs.Worlds.{World};
ghost use Rattle.mdb_model.specs.declared.script.Command.TheVariants.{ScanTable};
ghost use Rattle.mdb_bytes.specs.Held.{next_row, IsNextRow, HasPageCause};
ghost use Rattle.session_rows.specs.Replies.{scan_answer, IsRefusal, IsOfSession};
ghost use Rattle.session_rows.specs.Scan.{as_row, only_before, seen_rows};
ghost use Rattle.session_rows.specs.Serving.{HasKeys, no_pages, IsServed, IsAnswered};

use crate::replies::scan_opened;
use mdb_bytes::Rows;
use mdb_model::bytes::{Key, KeyBuf, ValueBuf};
use mdb_model::change::Change;
use mdb_model::fault::PageFault;
use mdb_model::name::{Session, Table};
use mdb_model::script::Reply;
use std::cmp::Ordering;
use transactions::Transactions;

/// Locks a table for a scan. Its rows are then asked for one at a time.
pub fn open_scan(transactions: &mut Transactions, session: Session, table: Table) -> Reply
    requires session { IsTrue (is_session session.0) }
    ensures answered { (rows : Tables) (w : World)
        → IsServed rows transactions.old w
        → IsAnswered no_pages w (ScanTable session table)
        (scan_answer (seen_rows rows transactions.new session.0) table result)
        (IsServed rows transactions.new) }
    ensures changes { transactions.new.changes ≡ transactions.old.changes }
    ensures keyed { (rows : Tables) → HasKeys rows
        → HasKeys (seen_rows rows transactions.new session.0) }
    ensures refused { IsRefusal result → transactions.new ≡ transactions.old }
    ensures inside { IsOfSession result }
{
    // Opens the invariant: each change is within its limits.
    let _changed = transactions.changed(session);
    scan_opened(transactions.scan(session, table))
}

// The table of a change.
fn table_of(change: &Change) -> Table
    ensures { result.0 ≡ (place_of change.now).0 }
{
    match change {
        Change::Put(table, _, _) => *table,
        Change::Del(table, _) => *table,
    }
}

// The key of a change.
fn key_of(change: &Change) -> &Key
    ensures { result.now ≡ (place_of change.now).1 }
{
    match change {
        Change::Put(_, key, _) => key,
        Change::Del(_, key) => key,
    }
}

// The first committed row of a table behind a key, where its own key comes before the bound; false
// where it does not, or there is none.
fn read_before<R: Rows>(
    rows: &mut R,
    table: Table,
    after: &KeyBuf,
    bound: &[u8],
    key: &mut KeyBuf,
    value: &mut ValueBuf,
) -> Result<bool, PageFault>
    requires { IsTrue (is_table table.0) }
    ensures found { R.is_known rows.old → IfOk result (λ found. IsNextRow found
        (only_before bound.now (next_row (R.held rows.old).rows table.0 after.now.items))
        key.new.items value.new.items) }
    ensures same { R.is_known rows.old → OnOk result (R.is_known rows.new
        × (R.held rows.new ≡ R.held rows.old)) }
    ensures spare { R.spare rows.old ≤ R.spare rows.new }
    ensures cause { HasPageCause (R.is_known rows.old) (R.faults rows.old) (R.faults rows.new)
        result }
    ensures quiet { IfErr result (λ fault. fault ≡ PageFault.Failed → R.reads_devices rows.old) }
    ensures follows { R.follows rows.old rows.new }
{
    if !rows.scan_next(table, after, key, value)? {
        return Ok(false);
    }
    match key.as_slice().cmp(bound) {
        Ordering::Less => Ok(true),
        _ => Ok(false),
    }
}

// The row that a change sets; false where it is a deletion.
fn copy_put(change: &Change, key: &mut KeyBuf, value: &mut ValueBuf) -> bool
    ensures { IsNextRow result (as_row change.now) key.new.items value.new.items }
{
    match change {
        Change::Put(_, own, set) => {
            *key = own.to_buf();
            *value = set.to_buf();
            true
        }
        Change::Del(_, _) => false,
    }
}

// A copy of a key.
fn copy_of(key: &KeyBuf) -> KeyBuf
    ensures { result ≡ key.now }
{
    let mut copied = KeyBuf::new();
    // There is room for every key, so it succeeds.
    let _ = copied.try_extend_from_slice(key.as_slice());
    copied
}

/// The first row of a table behind a key, as a session sees it: the committed rows with its own
/// last change of each key. False where there is no later row, and then `key` and `value` have
/// anything. Takes no memory.
pub fn next_seen<R: Rows>(
    transactions: &Transactions,
    rows: &mut R,
    session: Session,
    table: Table,
    after: &KeyBuf,
    key: &mut KeyBuf,
    value: &mut ValueBuf,
) -> Result<bool, PageFault>
    requires session { IsTrue (is_session session.0) }
    requires table { IsTrue (is_table table.0) }
    ensures found { R.is_known rows.old → IfOk result (λ found. IsNextRow found
        (next_row (seen_rows (R.held rows.old).rows transactions.now session.0) table.0
        after.now.items) key.new.items value.new.items) }
    ensures same { R.is_known rows.old → OnOk result (R.is_known rows.new
        × (R.held rows.new ≡ R.held rows.old)) }
    ensures spare { R.spare rows.old ≤ R.spare rows.new }
    ensures cause { HasPageCause (R.is_known rows.old) (R.faults rows.old) (R.faults rows.new)
        result }
    ensures quiet { ((any : R) → R.reads_devices any → ⊥)
        → IfErr result (λ fault. fault ≡ PageFault.Failed → ⊥) }
    ensures follows { R.follows rows.old rows.new }
{
    let mut passed = copy_of(after);
    for (_, change) in transactions.changes_behind(session, table, after) {
        if table_of(change).0 != table.0 {
            return rows.scan_next(table, &passed, key, value);
        }
        if read_before(rows, table, &passed, key_of(change).bytes(), key, value)? {
            return Ok(true);
        }
        if copy_put(change, key, value) {
            return Ok(true);
        }
        // The change is a deletion, and there is no row up to its key.
        passed = key_of(change).to_buf();
    }
    rows.scan_next(table, &passed, key, value)
}
