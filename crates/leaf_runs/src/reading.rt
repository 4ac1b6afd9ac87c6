//! What is read of tables.
ghost use Rattle.std.specs.Prelude.{◌≡◌, ◌^◌, ◌<◌, ◌≤◌, ℕ, List, length, IsTrue, Some, IfOk, OnOk};
ghost use Rattle.mdb_model.specs.Script.{is_table};
ghost use Rattle.std.specs.FinMap.{get, find};
ghost use Rattle.mdb_model.specs.Space.{table_pages, table_cost};
ghost use Rattle.mdb_bytes.specs.Held.{HasPageCause, IsFoundRow, next_row, IsNextRow};
ghost use Rattle.mdb_bytes.specs.TablePages.{RowLeaf};
ghost use Rattle.row_page.specs.Entries.{by_bytes};
ghost use Rattle.leaf_runs.specs.Runs.{Leaf, IsTableRun, AreRuns, HasRunLeaf, HasLeaves};
ghost use Rattle.leaf_runs.specs.Runs.{HasTwoLeaves, IsSeen, IsOnward, IsRowScanned, IsSpot, leaf_at};
ghost use Rattle.leaf_runs.specs.Runs.{rows_in_pages};
ghost use Rattle.leaf_runs.specs.Loose.{row_cost_of};

use crate::catalogue::read_entry;
use crate::leaf::{Sight, copy_behind, copy_value, passes_as_run_leaf, row_cost, see};
use mdb_bytes::{CatalogueEntry, Pages};
use mdb_model::bytes::{KeyBuf, ValueBuf};
use mdb_model::fault::{Damage, Device, PageFault, Rule};
use mdb_model::limits::MOST_BLOCKS;
use mdb_model::name::Table;
use row_page::next_of;

/// A broken rule. It names the logical page; on which block of a device that stands is not known
/// here, so the device is the first data volume.
pub(crate) fn broken(page: u32, rule: Rule) -> PageFault
    ensures { result ≡ PageFault.Failed → ⊥ }
{
    PageFault::Damaged(Damage {
        device: Device::Data(1),
        page,
        rule,
    })
}

/// What a walk for a key learns of a page.
pub(crate) fn look<P: Pages>(
    pages: &mut P,
    table: Table,
    page: u32,
    key: &[u8],
) -> Result<Sight, PageFault>
    ensures seen { P.is_known pages.old → HasRunLeaf (P.pages pages.old) table.0 page
        → IfOk result (IsSeen (P.pages pages.old) page key.now) }
    ensures same { P.is_known pages.old
        → OnOk result (P.is_known pages.new × (P.pages pages.new ≡ P.pages pages.old)) }
    ensures spare { P.spare pages.old ≤ P.spare pages.new }
    ensures cause { HasPageCause
        (P.is_known pages.old × HasRunLeaf (P.pages pages.old) table.0 page) (P.faults pages.old)
        (P.faults pages.new) result }
    ensures follows { P.follows pages.old pages.new }
{
    if !pages.lives(page) {
        return Err(broken(page, Rule::Page));
    }
    let in_memory = pages.is_in_memory(page);
    let bytes = pages.read(page)?;
    if !passes_as_run_leaf(bytes, in_memory, table, page) {
        return Err(broken(page, Rule::Page));
    }
    Ok(see(bytes, key))
}

/// The leaf of a run where a key stands or would stand.
#[derive(Clone, Copy, Debug)]
pub(crate) struct Spot {
    /// The page of the leaf before, none at the first one.
    pub(crate) before: Option<u32>,
    /// The page of the leaf.
    pub(crate) page: u32,
}

/// The leaf where the row with a key stands or would stand. A chain of leaves is followed as far as
/// the catalogue says, and no further than pages can exist.
pub(crate) fn locate<P: Pages>(
    pages: &mut P,
    table: Table,
    entry: CatalogueEntry,
    key: &[u8],
) -> Result<Spot, PageFault>
    ensures found { P.is_known pages.old
        → IfOk result
        (λ spot. (leaves : List Leaf) → IsTableRun (P.pages pages.old) table.0 entry leaves
        → 0 < length leaves → IsSpot leaves key.now spot.before spot.page) }
    ensures same { P.is_known pages.old
        → OnOk result (P.is_known pages.new × (P.pages pages.new ≡ P.pages pages.old)) }
    ensures spare { P.spare pages.old ≤ P.spare pages.new }
    ensures cause { HasPageCause
        (P.is_known pages.old × HasLeaves (P.pages pages.old) table.0 entry) (P.faults pages.old)
        (P.faults pages.new) result }
    ensures follows { P.follows pages.old pages.new }
{
    let mut before = None;
    let mut page = entry.root;
    for _ in 0..entry.pages.min(MOST_BLOCKS) {
        let sight = look(pages, table, page, key)?;
        if sight.is_here {
            return Ok(Spot { before, page });
        }
        before = Some(page);
        page = sight.next;
    }
    Err(broken(page, Rule::Tree))
}

// The value of a row on a leaf; false where the leaf has no such row.
fn read_value<P: Pages>(
    pages: &mut P,
    table: Table,
    page: u32,
    key: &[u8],
    into: &mut ValueBuf,
) -> Result<bool, PageFault>
    ensures found { P.is_known pages.old → HasRunLeaf (P.pages pages.old) table.0 page
        → IfOk result
        (λ found. (leaf : RowLeaf) × (leaf_at (P.pages pages.old) page ≡ Some leaf)
        × IsFoundRow found (find by_bytes key.now leaf.rows) into.new.items) }
    ensures same { P.is_known pages.old
        → OnOk result (P.is_known pages.new × (P.pages pages.new ≡ P.pages pages.old)) }
    ensures spare { P.spare pages.old ≤ P.spare pages.new }
    ensures cause { HasPageCause
        (P.is_known pages.old × HasRunLeaf (P.pages pages.old) table.0 page) (P.faults pages.old)
        (P.faults pages.new) result }
    ensures follows { P.follows pages.old pages.new }
{
    if !pages.lives(page) {
        return Err(broken(page, Rule::Page));
    }
    let in_memory = pages.is_in_memory(page);
    let bytes = pages.read(page)?;
    if !passes_as_run_leaf(bytes, in_memory, table, page) {
        return Err(broken(page, Rule::Page));
    }
    Ok(copy_value(bytes, key, into))
}

/// What the row with a key costs on a leaf, 0 where the leaf has no such row.
pub(crate) fn row_cost_at<P: Pages>(
    pages: &mut P,
    table: Table,
    page: u32,
    key: &[u8],
) -> Result<u64, PageFault>
    ensures cost { P.is_known pages.old → HasRunLeaf (P.pages pages.old) table.0 page
        → IfOk result
        (λ cost. (leaf : RowLeaf) × (leaf_at (P.pages pages.old) page ≡ Some leaf)
        × (cost ≡ row_cost_of key.now leaf.rows)) }
    ensures same { P.is_known pages.old
        → OnOk result (P.is_known pages.new × (P.pages pages.new ≡ P.pages pages.old)) }
    ensures spare { P.spare pages.old ≤ P.spare pages.new }
    ensures cause { HasPageCause
        (P.is_known pages.old × HasRunLeaf (P.pages pages.old) table.0 page) (P.faults pages.old)
        (P.faults pages.new) result }
    ensures follows { P.follows pages.old pages.new }
{
    if !pages.lives(page) {
        return Err(broken(page, Rule::Page));
    }
    let in_memory = pages.is_in_memory(page);
    let bytes = pages.read(page)?;
    if !passes_as_run_leaf(bytes, in_memory, table, page) {
        return Err(broken(page, Rule::Page));
    }
    Ok(row_cost(bytes, key))
}

/// The value of a row; false where there is no such row. It reads the catalogue and the leaves of
/// the table up to the one where the key stands or would stand.
pub fn get<P: Pages>(
    pages: &mut P,
    table: Table,
    key: &[u8],
    into: &mut ValueBuf,
) -> Result<bool, PageFault>
    requires { IsTrue (is_table table.0) }
    ensures found { P.is_known pages.old → AreRuns (P.pages pages.old)
        → IfOk result
        (λ found. IsFoundRow found (get (rows_in_pages (P.pages pages.old)) (table.0, key.now))
        into.new.items) }
    ensures same { P.is_known pages.old
        → OnOk result (P.is_known pages.new × (P.pages pages.new ≡ P.pages pages.old)) }
    ensures spare { P.spare pages.old ≤ P.spare pages.new }
    ensures cause { HasPageCause (P.is_known pages.old × AreRuns (P.pages pages.old))
        (P.faults pages.old) (P.faults pages.new) result }
    ensures follows { P.follows pages.old pages.new }
{
    let entry = read_entry(pages, table)?;
    if entry.root == 0 {
        return Ok(false);
    }
    let spot = locate(pages, table, entry, key)?;
    read_value(pages, table, spot.page, key, into)
}

/// What a scan learns of a leaf.
#[derive(Clone, Copy, Debug)]
pub(crate) struct Onward {
    /// Whether the leaf has a row after the key.
    pub(crate) found: bool,
    /// The page of the next leaf, 0 for none.
    pub(crate) next: u32,
}

// Copies the first row of a leaf after a key.
fn read_behind<P: Pages>(
    pages: &mut P,
    table: Table,
    page: u32,
    after: &[u8],
    key: &mut KeyBuf,
    value: &mut ValueBuf,
) -> Result<Onward, PageFault>
    ensures found { P.is_known pages.old → HasRunLeaf (P.pages pages.old) table.0 page
        → IfOk result
        (λ onward. IsOnward (P.pages pages.old) page after.now onward.found onward.next
        key.new.items value.new.items) }
    ensures same { P.is_known pages.old
        → OnOk result (P.is_known pages.new × (P.pages pages.new ≡ P.pages pages.old)) }
    ensures spare { P.spare pages.old ≤ P.spare pages.new }
    ensures cause { HasPageCause
        (P.is_known pages.old × HasRunLeaf (P.pages pages.old) table.0 page) (P.faults pages.old)
        (P.faults pages.new) result }
    ensures follows { P.follows pages.old pages.new }
{
    if !pages.lives(page) {
        return Err(broken(page, Rule::Page));
    }
    let in_memory = pages.is_in_memory(page);
    let bytes = pages.read(page)?;
    if !passes_as_run_leaf(bytes, in_memory, table, page) {
        return Err(broken(page, Rule::Page));
    }
    Ok(Onward {
        found: copy_behind(bytes, after, key, value),
        next: next_of(bytes),
    })
}

// Copies the first row after a key, which is on a leaf or is the first one of the next leaf.
fn scan_from<P: Pages>(
    pages: &mut P,
    table: Table,
    page: u32,
    after: &[u8],
    key: &mut KeyBuf,
    value: &mut ValueBuf,
) -> Result<bool, PageFault>
    ensures found { P.is_known pages.old → HasTwoLeaves (P.pages pages.old) table.0 page
        → IfOk result
        (λ found. IsRowScanned (P.pages pages.old) page after.now found key.new.items
        value.new.items) }
    ensures same { P.is_known pages.old
        → OnOk result (P.is_known pages.new × (P.pages pages.new ≡ P.pages pages.old)) }
    ensures spare { P.spare pages.old ≤ P.spare pages.new }
    ensures cause { HasPageCause
        (P.is_known pages.old × HasTwoLeaves (P.pages pages.old) table.0 page) (P.faults pages.old)
        (P.faults pages.new) result }
    ensures follows { P.follows pages.old pages.new }
{
    let here = read_behind(pages, table, page, after, key, value)?;
    if here.found {
        return Ok(true);
    }
    if here.next == 0 {
        return Ok(false);
    }
    let there = read_behind(pages, table, here.next, after, key, value)?;
    Ok(there.found)
}

/// The first row of a table whose key comes after `after`, which is empty at the start of a scan;
/// false where there is no later row, and then `key` and `value` have anything.
pub fn scan_next<P: Pages>(
    pages: &mut P,
    table: Table,
    after: &[u8],
    key: &mut KeyBuf,
    value: &mut ValueBuf,
) -> Result<bool, PageFault>
    requires { IsTrue (is_table table.0) }
    ensures found { P.is_known pages.old → AreRuns (P.pages pages.old)
        → IfOk result
        (λ found. IsNextRow found (next_row (rows_in_pages (P.pages pages.old)) table.0 after.now)
        key.new.items value.new.items) }
    ensures same { P.is_known pages.old
        → OnOk result (P.is_known pages.new × (P.pages pages.new ≡ P.pages pages.old)) }
    ensures spare { P.spare pages.old ≤ P.spare pages.new }
    ensures cause { HasPageCause (P.is_known pages.old × AreRuns (P.pages pages.old))
        (P.faults pages.old) (P.faults pages.new) result }
    ensures follows { P.follows pages.old pages.new }
{
    let entry = read_entry(pages, table)?;
    if entry.root == 0 {
        return Ok(false);
    }
    let spot = locate(pages, table, entry, after)?;
    scan_from(pages, table, spot.page, after, key, value)
}

/// How many pages a table has. They are no more than the space rule counts for its rows.
pub fn pages<P: Pages>(pages: &mut P, table: Table) -> Result<u32, PageFault>
    requires { IsTrue (is_table table.0) }
    ensures count { P.is_known pages.old → (tables : AreRuns (P.pages pages.old))
        → IfOk result (λ count. count ≡ length (tables.runs table.0)) }
    ensures bound { P.is_known pages.old → AreRuns (P.pages pages.old)
        → IfOk result
        (λ count. count
        ≤ table_pages
        (table_cost (rows_in_pages (P.pages pages.old)) (rows_in_pages (P.pages pages.old))
        table.0)) }
    ensures same { P.is_known pages.old
        → OnOk result (P.is_known pages.new × (P.pages pages.new ≡ P.pages pages.old)) }
    ensures spare { P.spare pages.old ≤ P.spare pages.new }
    ensures cause { HasPageCause (P.is_known pages.old × AreRuns (P.pages pages.old))
        (P.faults pages.old) (P.faults pages.new) result }
    ensures follows { P.follows pages.old pages.new }
{
    let entry = read_entry(pages, table)?;
    Ok(entry.pages)
}

/// What the rows of a table cost in the space rule, in bytes: 8, the key and the value for each
/// row. It is the sum that the catalogue has.
pub(crate) fn cost<P: Pages>(pages: &mut P, table: Table) -> Result<u64, PageFault>
    requires { IsTrue (is_table table.0) }
    ensures cost { P.is_known pages.old → AreRuns (P.pages pages.old)
        → IfOk result
        (λ cost. cost
        ≡ table_cost (rows_in_pages (P.pages pages.old)) (rows_in_pages (P.pages pages.old))
        table.0) }
    ensures small { P.is_known pages.old → AreRuns (P.pages pages.old)
        → IfOk result (λ cost. cost < 2 ^ 62) }
    ensures same { P.is_known pages.old
        → OnOk result (P.is_known pages.new × (P.pages pages.new ≡ P.pages pages.old)) }
    ensures spare { P.spare pages.old ≤ P.spare pages.new }
    ensures cause { HasPageCause (P.is_known pages.old × AreRuns (P.pages pages.old))
        (P.faults pages.old) (P.faults pages.new) result }
    ensures follows { P.follows pages.old pages.new }
{
    let entry = read_entry(pages, table)?;
    Ok(entry.cost)
}
