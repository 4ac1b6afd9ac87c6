//! The lines of sessions over the rows on the pages of a store: each makes one view of the store
//! and one keeper of tables over it.
ghost use Rattle.std.specs.Prelude.{◌≡◌, IfOk, IfErr, OnOk, OnErr, IsTrue};
ghost use Rattle.mdb_model.specs.Answers.{plain};
ghost use Rattle.mdb_model.specs.Script.{is_session, is_table, is_key};
ghost use Rattle.mdb_model.specs.Worlds.{World};
ghost use Rattle.mdb_model.specs.declared.change.Change.TheVariants.{Put, Del};
ghost use Rattle.mdb_model.specs.declared.script.Command.TheVariants.{GetRow, PutRow, DelRow};
ghost use Rattle.mdb_bytes.specs.Groups.{change_fits};
ghost use Rattle.mdb_bytes.specs.Held.{next_row, IsNextRow, HasPageCause};
ghost use Rattle.page_store.specs.Steps.{KeepsStore};
ghost use Rattle.session_rows.specs.Replies.{IsRefusal, IsOfSession};
ghost use Rattle.session_rows.specs.Scan.{seen_rows};
ghost use Rattle.session_rows.specs.Serving.{no_pages, IsServed, IsAnswered};
ghost use Rattle.space_rule.specs.KnownCosts.{prepared_for};
ghost use Rattle.space_rule.specs.Spaces.{known_costs};
ghost use Rattle.space_lines.specs.Counted.{AreaIsCounted, IsCounted};
ghost use Rattle.store_rows.specs.StoredRows.{stored_rows, HasRows};

use leaf_runs::Runs;
use mdb_bytes::{Pages, Rows};
use mdb_host::Host;
use mdb_model::bytes::{Key, KeyBuf, Value, ValueBuf};
use mdb_model::fault::PageFault;
use mdb_model::name::{Session, Table};
use mdb_model::script::Reply;
use page_store::PageStore;
use session_rows::{get_row, next_seen};
use space_lines::{del_row, put_row};
use space_rule::Space;
use transactions::Transactions;

/// The value of a row, as the session sees it. Where the rows cannot be read, the session has the
/// lock all the same.
pub(crate) fn get_line<H: Host>(
    transactions: &mut Transactions,
    store: &mut PageStore,
    host: &mut H,
    session: Session,
    table: Table,
    key: &Key,
) -> Result<Reply, PageFault>
    requires session { IsTrue (is_session session.0) }
    requires table { IsTrue (is_table table.0) }
    requires key { IsTrue (is_key key.now) }
    ensures answered { HasRows H.tells store.old (H.disk host.old).seen → (w : World)
        → IsServed (stored_rows store.old (H.disk host.old).seen) transactions.old w
        → IfOk result (λ reply. IsAnswered no_pages w (GetRow session table key.now) (plain reply)
        (IsServed (stored_rows store.new (H.disk host.new).seen) transactions.new)) }
    ensures same { HasRows H.tells store.old (H.disk host.old).seen
        → OnOk result (HasRows H.tells store.new (H.disk host.new).seen
        × (stored_rows store.new (H.disk host.new).seen
        ≡ stored_rows store.old (H.disk host.old).seen)) }
    ensures refused { IfOk result (λ reply. IsRefusal reply
        → transactions.new ≡ transactions.old) }
    ensures inside { IfOk result IsOfSession }
    ensures cause { HasPageCause (HasRows H.tells store.old (H.disk host.old).seen)
        (H.faults host.old) (H.faults host.new) result }
    ensures keeps { KeepsStore H.tells store.old store.new (H.disk host.old) (H.disk host.new) }
    ensures say_faults { H.say_faults host.new ≡ H.say_faults host.old }
{
    get_row(
        transactions,
        &mut Runs::new(store.view(host)),
        session,
        table,
        key,
    )
}

/// Puts a value, in the session's transaction alone, where `blocks`, those of the area, suffice.
/// Where the row cannot be read, nothing was done.
pub(crate) fn put_line<H: Host>(
    transactions: &mut Transactions,
    space: &mut Space,
    store: &mut PageStore,
    host: &mut H,
    blocks: u32,
    session: Session,
    table: Table,
    key: &Key,
    value: &Value,
) -> Result<Reply, PageFault>
    requires session { IsTrue (is_session session.0) }
    requires fits { IsTrue (change_fits (Put table key.now value.now)) }
    requires blocks { blocks ≡ (known_costs space.old).blocks }
    ensures answered { AreaIsCounted → HasRows H.tells store.old (H.disk host.old).seen
        → (w : World) → IsServed (stored_rows store.old (H.disk host.old).seen) transactions.old w
        → IsCounted (known_costs space.old) w
        → IfOk result (λ reply. IsAnswered no_pages w (PutRow session table key.now value.now)
        (plain reply) (λ after. IsServed (stored_rows store.new (H.disk host.new).seen)
        transactions.new after × IsCounted (known_costs space.new) after)) }
    ensures same { HasRows H.tells store.old (H.disk host.old).seen
        → OnOk result (HasRows H.tells store.new (H.disk host.new).seen
        × (stored_rows store.new (H.disk host.new).seen
        ≡ stored_rows store.old (H.disk host.old).seen)) }
    ensures refused { IfOk result (λ reply. IsRefusal reply
        → transactions.new ≡ transactions.old) }
    ensures kept { IfOk result (λ reply. IsRefusal reply → known_costs space.new
        ≡ prepared_for (known_costs space.old) (known_costs space.new).prepared) }
    ensures blocks { (known_costs space.new).blocks ≡ (known_costs space.old).blocks }
    ensures inside { IfOk result IsOfSession }
    ensures cause { HasPageCause (HasRows H.tells store.old (H.disk host.old).seen)
        (H.faults host.old) (H.faults host.new) result }
    ensures keeps { KeepsStore H.tells store.old store.new (H.disk host.old) (H.disk host.new) }
    ensures say_faults { H.say_faults host.new ≡ H.say_faults host.old }
{
    put_row(
        transactions,
        space,
        &mut Runs::new(store.view(host)),
        blocks,
        session,
        table,
        key,
        value,
    )
}

/// Deletes a row that the session sees, in its transaction alone, where `blocks`, those of the
/// area, suffice. Where the row cannot be read, nothing was done.
pub(crate) fn del_line<H: Host>(
    transactions: &mut Transactions,
    space: &mut Space,
    store: &mut PageStore,
    host: &mut H,
    blocks: u32,
    session: Session,
    table: Table,
    key: &Key,
) -> Result<Reply, PageFault>
    requires session { IsTrue (is_session session.0) }
    requires fits { IsTrue (change_fits (Del table key.now)) }
    requires blocks { blocks ≡ (known_costs space.old).blocks }
    ensures answered { AreaIsCounted → HasRows H.tells store.old (H.disk host.old).seen
        → (w : World) → IsServed (stored_rows store.old (H.disk host.old).seen) transactions.old w
        → IsCounted (known_costs space.old) w
        → IfOk result (λ reply. IsAnswered no_pages w (DelRow session table key.now)
        (plain reply) (λ after. IsServed (stored_rows store.new (H.disk host.new).seen)
        transactions.new after × IsCounted (known_costs space.new) after)) }
    ensures same { HasRows H.tells store.old (H.disk host.old).seen
        → OnOk result (HasRows H.tells store.new (H.disk host.new).seen
        × (stored_rows store.new (H.disk host.new).seen
        ≡ stored_rows store.old (H.disk host.old).seen)) }
    ensures refused { IfOk result (λ reply. IsRefusal reply
        → transactions.new ≡ transactions.old) }
    ensures kept { IfOk result (λ reply. IsRefusal reply → known_costs space.new
        ≡ prepared_for (known_costs space.old) (known_costs space.new).prepared) }
    ensures blocks { (known_costs space.new).blocks ≡ (known_costs space.old).blocks }
    ensures inside { IfOk result IsOfSession }
    ensures cause { HasPageCause (HasRows H.tells store.old (H.disk host.old).seen)
        (H.faults host.old) (H.faults host.new) result }
    ensures keeps { KeepsStore H.tells store.old store.new (H.disk host.old) (H.disk host.new) }
    ensures say_faults { H.say_faults host.new ≡ H.say_faults host.old }
{
    del_row(
        transactions,
        space,
        &mut Runs::new(store.view(host)),
        blocks,
        session,
        table,
        key,
    )
}

/// The first row of a table behind a key, as the session sees it. False where there is no later
/// row, and then `key` and `value` have anything.
pub(crate) fn next_line<H: Host>(
    transactions: &Transactions,
    store: &mut PageStore,
    host: &mut H,
    session: Session,
    table: Table,
    after: &KeyBuf,
    key: &mut KeyBuf,
    value: &mut ValueBuf,
) -> Result<bool, PageFault>
    requires session { IsTrue (is_session session.0) }
    requires table { IsTrue (is_table table.0) }
    ensures found { HasRows H.tells store.old (H.disk host.old).seen
        → IfOk result (λ found. IsNextRow found
        (next_row (seen_rows (stored_rows store.old (H.disk host.old).seen) transactions.now
        session.0) table.0 after.now.items) key.new.items value.new.items) }
    ensures same { HasRows H.tells store.old (H.disk host.old).seen
        → OnOk result (HasRows H.tells store.new (H.disk host.new).seen
        × (stored_rows store.new (H.disk host.new).seen
        ≡ stored_rows store.old (H.disk host.old).seen)) }
    ensures cause { HasPageCause (HasRows H.tells store.old (H.disk host.old).seen)
        (H.faults host.old) (H.faults host.new) result }
    ensures keeps { KeepsStore H.tells store.old store.new (H.disk host.old) (H.disk host.new) }
    ensures say_faults { H.say_faults host.new ≡ H.say_faults host.old }
{
    let mut rows = Runs::new(store.view(host));
    next_seen(transactions, &mut rows, session, table, after, key, value)
}
