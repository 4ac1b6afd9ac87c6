//! What is set of the transactions and the space rule as a database is opened, and as its sessions
//! are dismissed.
ghost use Rattle.std.specs.Prelude.{◌≡◌, ℕ, ◌+◌, ◌-◌, ◌≤◌, ◌<◌, ◌^◌, List, [], Err, IfErr, OnOk, OnErr, IsTrue, length, min, slice_index};
ghost use Rattle.mdb_model.specs.Script.{is_table};
ghost use Rattle.mdb_model.specs.Causes.{Rose};
ghost use Rattle.mdb_model.specs.Space.{table_cost};
ghost use Rattle.mdb_host.specs.Disk.{Disk};
ghost use Rattle.page_store.specs.Steps.{KeepsStore};
ghost use Rattle.store_rows.specs.StoredRows.{stored_rows, HasRows};
ghost use Rattle.space_rule.specs.KnownCosts.{changes_at, loaded};
ghost use Rattle.space_rule.specs.Spaces.{known_costs};
ghost use Rattle.open_database.specs.Costs.{IsLoaded, IsForgotten};

use mdb_host::Host;
use mdb_model::fault::PageFault;
use mdb_model::name::{Session, Table};
use page_store::PageStore;
use space_rule::Space;
use store_rows::cost_of_table;

// The bytes that a group may have at most, whatever the log.
const LONGEST_GROUP: u64 = 1_048_576;

// The greatest cost that a table may have, in bytes.
const MOST_COST: u64 = (1 << 62) - 1;

// The number of the last table.
const LAST_TABLE: u16 = 500;

// The number of the last session.
const LAST_SESSION: u8 = 64;

/// The bytes that a group may have at most in a log of this size.
pub(crate) fn most_bytes(size: u64) -> u64
    requires { 0 < size }
    ensures { result ≡ min 1048576 (size - 1) }
{
    LONGEST_GROUP.min(size - 1)
}

/// Tells the space rule what the rows of each table cost. No change may be open.
pub(crate) fn load_costs<H: Host>(
    space: &mut Space,
    store: &mut PageStore,
    host: &mut H,
) -> Result<(), PageFault>
    requires none { (session : ℕ) → changes_at (known_costs space.old).sessions session ≡ [] }
    requires long { length (known_costs space.old).committed ≡ 501 }
    ensures kept { IsLoaded (known_costs space.old) (known_costs space.new) }
    ensures loaded { HasRows H.tells store.old (H.disk host.old).seen
        → OnOk result ((table : ℕ) → 1 ≤ table → table ≤ 500
        → slice_index (known_costs space.new).committed table
        ≡ table_cost (stored_rows store.old (H.disk host.old).seen)
        (stored_rows store.old (H.disk host.old).seen) table) }
    ensures same { HasRows H.tells store.old (H.disk host.old).seen
        → OnOk result (HasRows H.tells store.new (H.disk host.new).seen
        × (stored_rows store.new (H.disk host.new).seen
        ≡ stored_rows store.old (H.disk host.old).seen)) }
    ensures whole { HasRows H.tells store.old (H.disk host.old).seen
        → IfErr result (λ fault. fault ≡ PageFault.Failed) }
    ensures cause { result ≡ Err PageFault.Failed
        → Rose (H.faults host.old) (H.faults host.new) }
    ensures later { H.faults host.old ≤ H.faults host.new }
    ensures keeps { KeepsStore H.tells store.old store.new (H.disk host.old) (H.disk host.new) }
    ensures say_faults { H.say_faults host.new ≡ H.say_faults host.old }
{
    for number in 1..=LAST_TABLE {
        load_cost(space, store, host, Table(number))?;
    }
    Ok(())
}

// Tells the space rule what the rows of a table cost.
fn load_cost<H: Host>(
    space: &mut Space,
    store: &mut PageStore,
    host: &mut H,
    table: Table,
) -> Result<(), PageFault>
    requires table { IsTrue (is_table table.0) }
    requires none { (session : ℕ) → changes_at (known_costs space.old).sessions session ≡ [] }
    ensures loaded { OnOk result ((cost : ℕ)
        × (known_costs space.new ≡ loaded (known_costs space.old) table.0 cost)
        × (HasRows H.tells store.old (H.disk host.old).seen
        → cost ≡ table_cost (stored_rows store.old (H.disk host.old).seen)
        (stored_rows store.old (H.disk host.old).seen) table.0)) }
    ensures unread { OnErr result (known_costs space.new ≡ known_costs space.old) }
    ensures same { HasRows H.tells store.old (H.disk host.old).seen
        → OnOk result (HasRows H.tells store.new (H.disk host.new).seen
        × (stored_rows store.new (H.disk host.new).seen
        ≡ stored_rows store.old (H.disk host.old).seen)) }
    ensures whole { HasRows H.tells store.old (H.disk host.old).seen
        → IfErr result (λ fault. fault ≡ PageFault.Failed) }
    ensures cause { result ≡ Err PageFault.Failed
        → Rose (H.faults host.old) (H.faults host.new) }
    ensures later { H.faults host.old ≤ H.faults host.new }
    ensures keeps { KeepsStore H.tells store.old store.new (H.disk host.old) (H.disk host.new) }
    ensures say_faults { H.say_faults host.new ≡ H.say_faults host.old }
{
    let cost = cost_of_table(store, host, table)?.min(MOST_COST);
    space.load(table, cost);
    Ok(())
}

/// Gives up the changes of all sessions.
pub(crate) fn forget_changes(space: &mut Space)
    ensures { IsForgotten (known_costs space.old) (known_costs space.new) 64 }
{
    for number in 1..=LAST_SESSION {
        space.ended(Session(number), false);
    }
}
