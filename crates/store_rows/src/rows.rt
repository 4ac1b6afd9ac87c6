//! The calls on rows, over a page store and its devices: each makes one view of the store and one
//! keeper of tables over it.
ghost use Rattle.std.specs.Prelude.{◌≡◌, ℕ, ◌+◌, ◌^◌, ◌<◌, ◌≤◌, IsTrue, IfOk, IfErr, OnOk, is_some};
ghost use Rattle.std.specs.FinMap.{get, insert, remove};
ghost use Rattle.mdb_model.specs.declared.change.Change.TheVariants.{Put, Del};
ghost use Rattle.mdb_model.specs.Script.{is_table, is_key};
ghost use Rattle.mdb_bytes.specs.Groups.{change_fits};
ghost use Rattle.mdb_bytes.specs.Held.{IsFoundRow, next_row, IsNextRow, HasPageCause};
ghost use Rattle.mdb_model.specs.Space.{table_pages, table_cost};
ghost use Rattle.page_store.specs.Store.{spare_of};
ghost use Rattle.page_store.specs.Steps.{KeepsStore};
ghost use Rattle.store_rows.specs.StoredRows.{stored_rows, HasRows};

use leaf_runs::Runs;
use mdb_bytes::{Pages, Rows};
use mdb_host::Host;
use mdb_model::bytes::{KeyBuf, ValueBuf};
use mdb_model::fault::PageFault;
use mdb_model::name::Table;
use page_store::PageStore;

/// The value of a row; false where there is no such row. A fault leaves the rows as they were.
pub fn get_row<H: Host>(
    store: &mut PageStore,
    host: &mut H,
    table: Table,
    key: &[u8],
    into: &mut ValueBuf,
) -> Result<bool, PageFault>
    requires table { IsTrue (is_table table.0) }
    requires key { IsTrue (is_key key.now) }
    ensures found { HasRows H.tells store.old (H.disk host.old).seen
        → IfOk result (λ found. IsFoundRow found
        (get (stored_rows store.old (H.disk host.old).seen) (table.0, key.now)) into.new.items) }
    ensures same { HasRows H.tells store.old (H.disk host.old).seen
        → OnOk result (HasRows H.tells store.new (H.disk host.new).seen
        × (stored_rows store.new (H.disk host.new).seen
        ≡ stored_rows store.old (H.disk host.old).seen)) }
    ensures spare { spare_of store.old ≤ spare_of store.new }
    ensures cause { HasPageCause (HasRows H.tells store.old (H.disk host.old).seen)
        (H.faults host.old) (H.faults host.new) result }
    ensures keeps { KeepsStore H.tells store.old store.new (H.disk host.old) (H.disk host.new) }
    ensures say_faults { H.say_faults host.new ≡ H.say_faults host.old }
{
    Runs::new(store.view(host)).get(table, key, into)
}

/// Sets the value of a row. After a fault of a device what is left of the rows is not said.
pub fn put_row<H: Host>(
    store: &mut PageStore,
    host: &mut H,
    table: Table,
    key: &[u8],
    value: &[u8],
) -> Result<(), PageFault>
    requires fits { IsTrue (change_fits (Put table key.now value.now)) }
    requires room { 40 ≤ spare_of store.old }
    ensures set { HasRows H.tells store.old (H.disk host.old).seen
        → OnOk result (HasRows H.tells store.new (H.disk host.new).seen
        × (stored_rows store.new (H.disk host.new).seen
        ≡ insert (stored_rows store.old (H.disk host.old).seen) (table.0, key.now) value.now)) }
    ensures spare { spare_of store.old ≤ spare_of store.new + 40 }
    ensures cause { HasPageCause (HasRows H.tells store.old (H.disk host.old).seen)
        (H.faults host.old) (H.faults host.new) result }
    ensures keeps { KeepsStore H.tells store.old store.new (H.disk host.old) (H.disk host.new) }
    ensures say_faults { H.say_faults host.new ≡ H.say_faults host.old }
{
    Runs::new(store.view(host)).put(table, key, value)
}

/// Takes a row away; false where there is no such row. After a fault of a device what is left of
/// the
/// rows is not said.
pub fn del_row<H: Host>(
    store: &mut PageStore,
    host: &mut H,
    table: Table,
    key: &[u8],
) -> Result<bool, PageFault>
    requires fits { IsTrue (change_fits (Del table key.now)) }
    requires room { 40 ≤ spare_of store.old }
    ensures found { HasRows H.tells store.old (H.disk host.old).seen
        → IfOk result (λ found. found
        ≡ is_some (get (stored_rows store.old (H.disk host.old).seen) (table.0, key.now))) }
    ensures gone { HasRows H.tells store.old (H.disk host.old).seen
        → OnOk result (HasRows H.tells store.new (H.disk host.new).seen
        × (stored_rows store.new (H.disk host.new).seen
        ≡ remove (stored_rows store.old (H.disk host.old).seen) (table.0, key.now))) }
    ensures spare { spare_of store.old ≤ spare_of store.new + 40 }
    ensures cause { HasPageCause (HasRows H.tells store.old (H.disk host.old).seen)
        (H.faults host.old) (H.faults host.new) result }
    ensures keeps { KeepsStore H.tells store.old store.new (H.disk host.old) (H.disk host.new) }
    ensures say_faults { H.say_faults host.new ≡ H.say_faults host.old }
{
    Runs::new(store.view(host)).del(table, key)
}

/// The first row of a table whose key comes after `after`; false where there is no later row.
pub fn next_row_of<H: Host>(
    store: &mut PageStore,
    host: &mut H,
    table: Table,
    after: &KeyBuf,
    key: &mut KeyBuf,
    value: &mut ValueBuf,
) -> Result<bool, PageFault>
    requires { IsTrue (is_table table.0) }
    ensures found { HasRows H.tells store.old (H.disk host.old).seen
        → IfOk result (λ found. IsNextRow found
        (next_row (stored_rows store.old (H.disk host.old).seen) table.0 after.now.items)
        key.new.items value.new.items) }
    ensures same { HasRows H.tells store.old (H.disk host.old).seen
        → OnOk result (HasRows H.tells store.new (H.disk host.new).seen
        × (stored_rows store.new (H.disk host.new).seen
        ≡ stored_rows store.old (H.disk host.old).seen)) }
    ensures spare { spare_of store.old ≤ spare_of store.new }
    ensures cause { HasPageCause (HasRows H.tells store.old (H.disk host.old).seen)
        (H.faults host.old) (H.faults host.new) result }
    ensures keeps { KeepsStore H.tells store.old store.new (H.disk host.old) (H.disk host.new) }
    ensures say_faults { H.say_faults host.new ≡ H.say_faults host.old }
{
    Runs::new(store.view(host)).scan_next(table, after, key, value)
}

/// How many pages a table has.
pub fn pages_of_table<H: Host>(
    store: &mut PageStore,
    host: &mut H,
    table: Table,
) -> Result<u32, PageFault>
    requires { IsTrue (is_table table.0) }
    ensures count { HasRows H.tells store.old (H.disk host.old).seen
        → IfOk result (λ count. count
        ≤ table_pages (table_cost (stored_rows store.old (H.disk host.old).seen)
        (stored_rows store.old (H.disk host.old).seen) table.0)) }
    ensures same { HasRows H.tells store.old (H.disk host.old).seen
        → OnOk result (HasRows H.tells store.new (H.disk host.new).seen
        × (stored_rows store.new (H.disk host.new).seen
        ≡ stored_rows store.old (H.disk host.old).seen)) }
    ensures spare { spare_of store.old ≤ spare_of store.new }
    ensures cause { HasPageCause (HasRows H.tells store.old (H.disk host.old).seen)
        (H.faults host.old) (H.faults host.new) result }
    ensures keeps { KeepsStore H.tells store.old store.new (H.disk host.old) (H.disk host.new) }
    ensures say_faults { H.say_faults host.new ≡ H.say_faults host.old }
{
    Runs::new(store.view(host)).pages(table)
}

/// What the rows of a table cost in the space rule, in bytes: 8, the key and the value for each
/// row. It reads the catalogue's page alone.
pub fn cost_of_table<H: Host>(
    store: &mut PageStore,
    host: &mut H,
    table: Table,
) -> Result<u64, PageFault>
    requires { IsTrue (is_table table.0) }
    ensures cost { HasRows H.tells store.old (H.disk host.old).seen
        → IfOk result (λ cost. cost
        ≡ table_cost (stored_rows store.old (H.disk host.old).seen)
        (stored_rows store.old (H.disk host.old).seen) table.0) }
    ensures small { HasRows H.tells store.old (H.disk host.old).seen
        → IfOk result (λ cost. cost < 2 ^ 62) }
    ensures same { HasRows H.tells store.old (H.disk host.old).seen
        → OnOk result (HasRows H.tells store.new (H.disk host.new).seen
        × (stored_rows store.new (H.disk host.new).seen
        ≡ stored_rows store.old (H.disk host.old).seen)) }
    ensures spare { spare_of store.old ≤ spare_of store.new }
    ensures cause { HasPageCause (HasRows H.tells store.old (H.disk host.old).seen)
        (H.faults host.old) (H.faults host.new) result }
    ensures keeps { KeepsStore H.tells store.old store.new (H.disk host.old) (H.disk host.new) }
    ensures say_faults { H.say_faults host.new ≡ H.say_faults host.old }
{
    Runs::new(store.view(host)).cost(table)
}
