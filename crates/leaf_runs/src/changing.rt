//! Rows put and deleted.
ghost use Rattle.std.specs.Prelude.{◌≡◌, ◌+◌, ◌-◌, ◌<◌, ◌≤◌, ◌^◌, ◌∷◌, [], ℕ};
ghost use Rattle.std.specs.Prelude.{List, length, IsTrue, IfOk, OnOk, is_some};
ghost use Rattle.std.specs.FinMap.{get, put as with_row};
ghost use Rattle.mdb_model.specs.Script.{is_table, is_key, is_value};
ghost use Rattle.mdb_bytes.specs.Held.{HasPageCause};
ghost use Rattle.mdb_bytes.specs.Paged.{is_live};
ghost use Rattle.row_page.specs.Entries.{by_bytes};
ghost use Rattle.leaf_runs.specs.Edits.{without};
ghost use Rattle.leaf_runs.specs.Runs.{Leaf, IsTableRun, HasLeaves, AreRuns, run_rows, rows_in_pages};
ghost use Rattle.leaf_runs.specs.Loose.{IsLooseRun};
ghost use Rattle.leaf_runs.specs.Changed.{leaves_added, FindsSpot, HasFound, IsWholeRun, HasWholeRun};
ghost use Rattle.leaf_runs.specs.Changed.{HasSomeRun, IsNewRun, IsTakenRun, IsSettledRun};
ghost use Rattle.leaf_runs.specs.Changed.{HasSettledRun, PutsRow, DelsRow};

use crate::catalogue::{read_entry, write_entry};
use crate::placing::{first_row, place_in_run, take_in_run};
use crate::reading::{Spot, locate, row_cost_at};
use crate::settling::{drop_leaf, settle};
use mdb_bytes::{CatalogueEntry, Pages};
use mdb_model::fault::PageFault;
use mdb_model::name::Table;

// A leaf where a key stands or would stand, and what the row of the key costs.
#[derive(Clone, Copy, Debug)]
struct Found {
    spot: Spot,
    // 0 where there is no such row.
    cost: u64,
}

// Finds the leaf where a key stands or would stand, and what its row costs.
fn find_row<P: Pages>(
    pages: &mut P,
    table: Table,
    entry: CatalogueEntry,
    key: &[u8],
) -> Result<Found, PageFault>
    ensures found { P.is_known pages.old
        → IfOk result
        (λ found. (leaves : List Leaf) → IsTableRun (P.pages pages.old) table.0 entry leaves
        → 0 < length leaves
        → FindsSpot leaves key.now found.spot.before found.spot.page found.cost) }
    ensures same { P.is_known pages.old
        → OnOk result (P.is_known pages.new × (P.pages pages.new ≡ P.pages pages.old)) }
    ensures spare { P.spare pages.old ≤ P.spare pages.new }
    ensures cause { HasPageCause
        (P.is_known pages.old × HasLeaves (P.pages pages.old) table.0 entry) (P.faults pages.old)
        (P.faults pages.new) result }
    ensures follows { P.follows pages.old pages.new }
{
    let spot = locate(pages, table, entry, key)?;
    let cost = row_cost_at(pages, table, spot.page, key)?;
    Ok(Found { spot, cost })
}

// What a row costs.
fn cost_of(key: &[u8], value: &[u8]) -> u64
    requires key { IsTrue (is_key key.now) }
    requires value { IsTrue (is_value value.now) }
    ensures cost { result ≡ 8 + length key.now + length value.now }
    ensures small { result ≤ 1764 }
{
    8 + key.len() as u64 + value.len() as u64
}

// What the catalogue says of a table once another leaf was made or not, some leaves were joined
// to the one before, and rows of these costs were taken out and put in.
fn recount(
    entry: CatalogueEntry,
    other: Option<u32>,
    joined: u32,
    taken: u64,
    put: u64,
) -> CatalogueEntry
    ensures root { result.root ≡ entry.root }
    ensures pages { entry.pages ≤ 65536
        → result.pages ≡ (entry.pages + leaves_added other) - joined }
    ensures cost { entry.cost + put < 2 ^ 64 → result.cost ≡ (entry.cost - taken) + put }
{
    let made = u32::from(other.is_some());
    CatalogueEntry {
        root: entry.root,
        pages: entry.pages.saturating_add(made).saturating_sub(joined),
        cost: entry.cost.saturating_sub(taken).saturating_add(put),
    }
}

// Puts the first row of a table.
fn put_first<P: Pages>(
    pages: &mut P,
    table: Table,
    key: &[u8],
    value: &[u8],
) -> Result<CatalogueEntry, PageFault>
    requires table { IsTrue (is_table table.0) }
    requires key { IsTrue (is_key key.now) }
    requires value { IsTrue (is_value value.now) }
    requires room { 3 ≤ P.spare pages.old }
    // The result.
    ensures made { P.is_known pages.old → IsTrue (is_live (P.pages pages.old) 0)
        → IsLooseRun (P.pages pages.old) table.0 []
        → IfOk result
        (IsNewRun (P.pages pages.old) (P.pages pages.new) table.0 ((key.now, value.now) ∷ [])) }
    ensures known { P.is_known pages.old → OnOk result (P.is_known pages.new) }
    // Room and faults.
    ensures spare { P.spare pages.old ≤ P.spare pages.new + 3 }
    ensures cause { HasPageCause (P.is_known pages.old × IsLooseRun (P.pages pages.old) table.0 [])
        (P.faults pages.old) (P.faults pages.new) result }
    ensures follows { P.follows pages.old pages.new }
{
    let root = first_row(pages, table, key, value)?;
    Ok(CatalogueEntry {
        root,
        pages: 1,
        cost: cost_of(key, value),
    })
}

// Puts a row into the leaves of a table that has some.
fn put_in_leaves<P: Pages>(
    pages: &mut P,
    table: Table,
    entry: CatalogueEntry,
    key: &[u8],
    value: &[u8],
) -> Result<CatalogueEntry, PageFault>
    requires table { IsTrue (is_table table.0) }
    requires key { IsTrue (is_key key.now) }
    requires value { IsTrue (is_value value.now) }
    requires room { 13 ≤ P.spare pages.old }
    // The result.
    ensures made { P.is_known pages.old → IsTrue (is_live (P.pages pages.old) 0)
        → (leaves : List Leaf) → IsWholeRun (P.pages pages.old) table.0 entry leaves
        → 0 < length leaves
        → IfOk result
        (IsNewRun (P.pages pages.old) (P.pages pages.new) table.0
        (with_row by_bytes key.now value.now (run_rows leaves))) }
    ensures known { P.is_known pages.old → OnOk result (P.is_known pages.new) }
    // Room and faults.
    ensures spare { P.spare pages.old ≤ P.spare pages.new + 13 }
    ensures cause { HasPageCause
        (P.is_known pages.old × IsTrue (is_live (P.pages pages.old) 0)
        × HasSomeRun (P.pages pages.old) table.0 entry)
        (P.faults pages.old) (P.faults pages.new) result }
    ensures follows { P.follows pages.old pages.new }
{
    let found = find_row(pages, table, entry, key)?;
    let spot = found.spot;
    let other = place_in_run(pages, table, spot.page, key, value)?;
    let joined = settle(pages, table, spot.before, spot.page, other)?;
    Ok(recount(entry, other, joined, found.cost, cost_of(key, value)))
}

// Puts a row into a table, whether it has rows or not.
fn put_in_table<P: Pages>(
    pages: &mut P,
    table: Table,
    entry: CatalogueEntry,
    key: &[u8],
    value: &[u8],
) -> Result<CatalogueEntry, PageFault>
    requires table { IsTrue (is_table table.0) }
    requires key { IsTrue (is_key key.now) }
    requires value { IsTrue (is_value value.now) }
    requires room { 13 ≤ P.spare pages.old }
    // The result.
    ensures made { P.is_known pages.old → IsTrue (is_live (P.pages pages.old) 0)
        → (leaves : List Leaf) → IsWholeRun (P.pages pages.old) table.0 entry leaves
        → IfOk result
        (IsNewRun (P.pages pages.old) (P.pages pages.new) table.0
        (with_row by_bytes key.now value.now (run_rows leaves))) }
    ensures known { P.is_known pages.old → OnOk result (P.is_known pages.new) }
    // Room and faults.
    ensures spare { P.spare pages.old ≤ P.spare pages.new + 13 }
    ensures cause { HasPageCause
        (P.is_known pages.old × IsTrue (is_live (P.pages pages.old) 0)
        × HasWholeRun (P.pages pages.old) table.0 entry)
        (P.faults pages.old) (P.faults pages.new) result }
    ensures follows { P.follows pages.old pages.new }
{
    if entry.root == 0 {
        return put_first(pages, table, key, value);
    }
    put_in_leaves(pages, table, entry, key, value)
}

/// Sets the value of a row. Where the call fails, its table may have been left half changed.
pub fn put<P: Pages>(pages: &mut P, table: Table, key: &[u8], value: &[u8]) -> Result<(), PageFault>
    requires table { IsTrue (is_table table.0) }
    requires key { IsTrue (is_key key.now) }
    requires value { IsTrue (is_value value.now) }
    requires room { 40 ≤ P.spare pages.old }
    // The result.
    ensures set { P.is_known pages.old → AreRuns (P.pages pages.old) → OnOk result
        (PutsRow (P.pages pages.old) (P.pages pages.new) table.0 key.now value.now) }
    ensures known { P.is_known pages.old → OnOk result (P.is_known pages.new) }
    // Room and faults.
    ensures spare { P.spare pages.old ≤ P.spare pages.new + 40 }
    ensures cause { HasPageCause (P.is_known pages.old × AreRuns (P.pages pages.old))
        (P.faults pages.old) (P.faults pages.new) result }
    ensures follows { P.follows pages.old pages.new }
{
    let entry = read_entry(pages, table)?;
    let changed = put_in_table(pages, table, entry, key, value)?;
    write_entry(pages, table, changed)
}

// Takes a row that was found out of the leaves of a table, and leaves one without rows where it was
// the only row.
fn take_from_leaves<P: Pages>(
    pages: &mut P,
    table: Table,
    entry: CatalogueEntry,
    key: &[u8],
    found: Found,
) -> Result<CatalogueEntry, PageFault>
    requires room { 7 ≤ P.spare pages.old }
    ensures taken { P.is_known pages.old → (leaves : List Leaf)
        → IsWholeRun (P.pages pages.old) table.0 entry leaves
        → FindsSpot leaves key.now found.spot.before found.spot.page found.cost
        → IfOk result
        (IsTakenRun (P.pages pages.old) (P.pages pages.new) table.0
        (without key.now (run_rows leaves))) }
    ensures known { P.is_known pages.old → OnOk result (P.is_known pages.new) }
    ensures spare { P.spare pages.old ≤ P.spare pages.new + 7 }
    ensures cause { HasPageCause
        (P.is_known pages.old
        × HasFound (P.pages pages.old) table.0 entry key.now found.spot.before found.spot.page
        found.cost)
        (P.faults pages.old) (P.faults pages.new) result }
    ensures follows { P.follows pages.old pages.new }
{
    let spot = found.spot;
    take_in_run(pages, table, spot.page, key)?;
    let joined = settle(pages, table, spot.before, spot.page, None)?;
    Ok(recount(entry, None, joined, found.cost, 0))
}

// Takes the only leaf of a table away where it has no rows.
fn drop_if_empty<P: Pages>(
    pages: &mut P,
    entry: CatalogueEntry,
) -> Result<CatalogueEntry, PageFault>
    ensures left { P.is_known pages.old → (table : ℕ) (leaves : List Leaf)
        → IsSettledRun (P.pages pages.old) table entry leaves
        → IfOk result (IsNewRun (P.pages pages.old) (P.pages pages.new) table (run_rows leaves)) }
    ensures known { P.is_known pages.old → OnOk result (P.is_known pages.new) }
    ensures spare { P.spare pages.old ≤ P.spare pages.new }
    ensures cause { HasPageCause (P.is_known pages.old × HasSettledRun (P.pages pages.old) entry)
        (P.faults pages.old) (P.faults pages.new) result }
    ensures follows { P.follows pages.old pages.new }
{
    if entry.pages > 1 || entry.cost > 0 {
        return Ok(entry);
    }
    drop_leaf(pages, entry.root)?;
    Ok(CatalogueEntry {
        root: 0,
        pages: 0,
        cost: 0,
    })
}

// Takes a row that was found out of a table.
fn take_from_table<P: Pages>(
    pages: &mut P,
    table: Table,
    entry: CatalogueEntry,
    key: &[u8],
    found: Found,
) -> Result<CatalogueEntry, PageFault>
    requires room { 7 ≤ P.spare pages.old }
    ensures made { P.is_known pages.old → (leaves : List Leaf)
        → IsWholeRun (P.pages pages.old) table.0 entry leaves
        → FindsSpot leaves key.now found.spot.before found.spot.page found.cost
        → IfOk result
        (IsNewRun (P.pages pages.old) (P.pages pages.new) table.0
        (without key.now (run_rows leaves))) }
    ensures known { P.is_known pages.old → OnOk result (P.is_known pages.new) }
    ensures spare { P.spare pages.old ≤ P.spare pages.new + 7 }
    ensures cause { HasPageCause
        (P.is_known pages.old
        × HasFound (P.pages pages.old) table.0 entry key.now found.spot.before found.spot.page
        found.cost)
        (P.faults pages.old) (P.faults pages.new) result }
    ensures follows { P.follows pages.old pages.new }
{
    let left = take_from_leaves(pages, table, entry, key, found)?;
    drop_if_empty(pages, left)
}

/// Takes a row away; false where there is no such row. Where the call fails, its table may have
/// been left half changed.
pub fn del<P: Pages>(pages: &mut P, table: Table, key: &[u8]) -> Result<bool, PageFault>
    requires table { IsTrue (is_table table.0) }
    requires key { IsTrue (is_key key.now) }
    requires room { 40 ≤ P.spare pages.old }
    // The result.
    ensures found { P.is_known pages.old → AreRuns (P.pages pages.old)
        → IfOk result
        (λ found. found ≡ is_some (get (rows_in_pages (P.pages pages.old)) (table.0, key.now))) }
    ensures gone { P.is_known pages.old → AreRuns (P.pages pages.old) → OnOk result
        (DelsRow (P.pages pages.old) (P.pages pages.new) table.0 key.now) }
    ensures known { P.is_known pages.old → OnOk result (P.is_known pages.new) }
    // Room and faults.
    ensures spare { P.spare pages.old ≤ P.spare pages.new + 40 }
    ensures cause { HasPageCause (P.is_known pages.old × AreRuns (P.pages pages.old))
        (P.faults pages.old) (P.faults pages.new) result }
    ensures follows { P.follows pages.old pages.new }
{
    let entry = read_entry(pages, table)?;
    if entry.root == 0 {
        return Ok(false);
    }
    let found = find_row(pages, table, entry, key)?;
    if found.cost == 0 {
        return Ok(false);
    }
    let changed = take_from_table(pages, table, entry, key, found)?;
    write_entry(pages, table, changed)?;
    Ok(true)
}
