//! A row leaf as a sorted list of rows, read in place. The bytes may be any: what is not such a leaf
//! gives some answer, and no fault.
ghost use Rattle.std.specs.Prelude.{◌≡◌, ◌+◌, ◌<◌, ◌≤◌, ℕ, ◌↔◌};
ghost use Rattle.std.specs.Prelude.{List, length, IsTrue, Some, true, Result, MatchResult};
ghost use Rattle.std.specs.Prelude.{slice_get};
ghost use Rattle.std.specs.FinMap.{find};
ghost use Rattle.mdb_bytes.specs.TablePages.{RowLeaf};
ghost use Rattle.mdb_bytes.specs.PageReadings.{row_leaf_of};
ghost use Rattle.mdb_bytes.specs.Held.{IsFoundRow};
ghost use Rattle.row_page.specs.Entries.{by_bytes};
ghost use Rattle.sorted_places.specs.Search.{IsAt, IsGap};
ghost use Rattle.leaf_runs.specs.Sights.{BelongsHere, Sees};
ghost use Rattle.leaf_runs.specs.Behind.{IsCut, IsFirstAfter};
ghost use Rattle.leaf_runs.specs.Leaves.{key_of_row, all_below, IsRunLeaf};
ghost use Rattle.leaf_runs.specs.Loose.{row_cost_of};

use mdb_bytes::{PageHead, check_row_leaf, page_head};
use mdb_model::bytes::{KeyBuf, ValueBuf};
use mdb_model::limits::PAGE_BYTES;
use mdb_model::name::Table;
use row_page::{count_of, find, key_of, next_of, value_of};

/// What a walk along a run learns of a leaf.
#[derive(Clone, Copy, Debug)]
pub(crate) struct Sight {
    /// Whether the key stands or would stand here, among the leaves from this one on.
    pub(crate) is_here: bool,
    /// The page of the next leaf, 0 for none.
    pub(crate) next: u32,
}

fn names(head: PageHead, table: Table, number: u32) -> bool
    ensures { IsTrue result ↔ ((head.table ≡ table.0) × (head.number ≡ number) × (1 ≤ head.count)) }
{
    head.table == table.0 && head.number == number && head.count >= 1
}

/// Whether a head is that of a row leaf.
pub(crate) fn is_leaf_head(head: PageHead) -> bool
    ensures { IsTrue result ↔ ((head.kind ≡ 1) × (head.level ≡ 0)) }
{
    head.kind == 1 && head.level == 0
}

/// Whether a page is a leaf of the table that has rows, and names itself by this number.
pub(crate) fn is_run_leaf(page: &[u8; PAGE_BYTES], table: Table, number: u32) -> bool
    ensures { IsTrue result ↔ IsRunLeaf table.0 number page.now }
{
    if !check_row_leaf(page) {
        return false;
    }
    names(page_head(page), table, number)
}

// The same by its head alone. It is true of such a leaf, and may be true of other bytes.
fn may_be_run_leaf(page: &[u8; PAGE_BYTES], table: Table, number: u32) -> bool
    ensures { IsRunLeaf table.0 number page.now → IsTrue result }
{
    let head = page_head(page);
    is_leaf_head(head) && names(head, table, number)
}

/// Tests a page for such a leaf before it is read: whole where its bytes come from a device, by its
/// head alone where they were in memory, since they were tested as they came there.
pub(crate) fn passes_as_run_leaf(
    page: &[u8; PAGE_BYTES],
    in_memory: bool,
    table: Table,
    number: u32,
) -> bool
    ensures { IsRunLeaf table.0 number page.now → IsTrue result }
{
    if in_memory {
        return may_be_run_leaf(page, table, number);
    }
    is_run_leaf(page, table, number)
}

/// Where the row with a key stands in a leaf, or would stand.
pub(crate) fn search(page: &[u8; PAGE_BYTES], key: &[u8]) -> Result<usize, usize>
    ensures { (leaf : RowLeaf) → row_leaf_of page.now ≡ Some leaf
        → MatchResult result (IsAt by_bytes key_of_row leaf.rows key.now)
        (IsGap by_bytes key_of_row leaf.rows key.now) }
{
    find(page, key)
}

/// The value of the row with a key; false where a leaf has no such row.
pub(crate) fn copy_value(page: &[u8; PAGE_BYTES], key: &[u8], into: &mut ValueBuf) -> bool
    ensures { (leaf : RowLeaf) → row_leaf_of page.now ≡ Some leaf
        → IsFoundRow result (find by_bytes key.now leaf.rows) into.new.items }
{
    let Ok(at) = search(page, key) else {
        return false;
    };
    into.clear();
    into.try_extend_from_slice(value_of(page, at)).is_ok()
}

/// What the row with a key costs, 0 where a leaf has no such row.
pub(crate) fn row_cost(page: &[u8; PAGE_BYTES], key: &[u8]) -> u64
    ensures { (leaf : RowLeaf) → row_leaf_of page.now ≡ Some leaf
        → result ≡ row_cost_of key.now leaf.rows }
{
    let Ok(at) = search(page, key) else {
        return 0;
    };
    let value = value_of(page, at);
    8u64.saturating_add(key.len() as u64)
        .saturating_add(value.len() as u64)
}

// Whether the last key of a leaf is below a key.
fn ends_below(page: &[u8; PAGE_BYTES], key: &[u8]) -> bool
    ensures { (leaf : RowLeaf) → row_leaf_of page.now ≡ Some leaf → 0 < length leaf.rows
        → result ≡ all_below key.now leaf.rows }
{
    let last = key_of(page, count_of(page).saturating_sub(1));
    last.cmp(&key).is_lt()
}

// Whether a key stands in a leaf with rows or would stand there, among the leaves from it on.
fn stands_here(page: &[u8; PAGE_BYTES], key: &[u8]) -> bool
    ensures { (leaf : RowLeaf) → row_leaf_of page.now ≡ Some leaf → 0 < length leaf.rows
        → BelongsHere result leaf key.now }
{
    if next_of(page) == 0 {
        return true;
    }
    !ends_below(page, key)
}

/// What a walk for a key learns of a leaf with rows.
pub(crate) fn see(page: &[u8; PAGE_BYTES], key: &[u8]) -> Sight
    ensures { (leaf : RowLeaf) → row_leaf_of page.now ≡ Some leaf → 0 < length leaf.rows
        → Sees leaf key.now result }
{
    Sight {
        is_here: stands_here(page, key),
        next: next_of(page),
    }
}

/// Where the rows after a key begin in a leaf.
pub(crate) fn first_behind(page: &[u8; PAGE_BYTES], after: &[u8]) -> usize
    ensures { (leaf : RowLeaf) → row_leaf_of page.now ≡ Some leaf
        → IsCut leaf.rows after.now result }
{
    match search(page, after) {
        Ok(at) => at.saturating_add(1),
        Err(at) => at,
    }
}

// Copies the key and the value of a row.
fn copy_row(page: &[u8; PAGE_BYTES], at: usize, key: &mut KeyBuf, value: &mut ValueBuf)
    ensures { (leaf : RowLeaf) → row_leaf_of page.now ≡ Some leaf → at < length leaf.rows
        → slice_get leaf.rows at ≡ Some (key.new.items, value.new.items) }
{
    // There is room for every key and every value of a leaf, so both succeed.
    key.clear();
    let _ = key.try_extend_from_slice(key_of(page, at));
    value.clear();
    let _ = value.try_extend_from_slice(value_of(page, at));
}

/// Copies the first row after a key; false where a leaf has none.
pub(crate) fn copy_behind(
    page: &[u8; PAGE_BYTES],
    after: &[u8],
    key: &mut KeyBuf,
    value: &mut ValueBuf,
) -> bool
    ensures { (leaf : RowLeaf) → row_leaf_of page.now ≡ Some leaf
        → IsFirstAfter result leaf.rows after.now key.new.items value.new.items }
{
    let at = first_behind(page, after);
    if at >= count_of(page) {
        return false;
    }
    copy_row(page, at, key, value);
    true
}
