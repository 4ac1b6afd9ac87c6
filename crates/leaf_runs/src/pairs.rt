//! Two row leaves, split and joined in place.
ghost use Rattle.std.specs.Prelude.{◌≡◌, ◌+◌, ◌<◌, ◌≤◌, ◌++◌, ◌↔◌, ℕ, ⊤};
ghost use Rattle.std.specs.Prelude.{List, length, Bool, true, false, IsTrue, Some, T};
ghost use Rattle.std.specs.FinMap.{is_sorted};
ghost use Rattle.mdb_bytes.specs.TablePages.{RowLeaf};
ghost use Rattle.mdb_bytes.specs.PageReadings.{row_leaf_of};
ghost use Rattle.row_page.specs.Entries.{by_bytes};
ghost use Rattle.leaf_runs.specs.Edits.{IsLeafNamed};

use crate::leaf::is_leaf_head;
use mdb_bytes::{PageHead, PairEdit, check_row_leaf, page_head};
use mdb_model::limits::{PAGE_BYTES, PAGE_ROOM};
use mdb_model::name::Table;
use row_page::{count_of, key_of, merge, next_of, set_next, split, used_of};

/// Moves the rows from a place on to a leaf without rows, which becomes the next one.
#[derive(Clone, Copy, Debug)]
pub(crate) struct SplitAt {
    pub(crate) table: Table,
    pub(crate) from: u32,
    pub(crate) to: u32,
    pub(crate) at: usize,
}

/// Moves the rows of the next leaf after those of a leaf, where they go on one page.
#[derive(Clone, Copy, Debug)]
pub(crate) struct JoinNext {
    pub(crate) table: Table,
    pub(crate) first: u32,
    pub(crate) second: u32,
}

fn is_named(head: PageHead, table: Table, number: u32) -> bool
    ensures { IsTrue result ↔ ((head.table ≡ table.0) × (head.number ≡ number)) }
{
    head.table == table.0 && head.number == number
}

// Whether the head of a page is that of a leaf of the table with this number. It is true of such a
// leaf, and may be true of other bytes.
fn may_be_leaf(page: &[u8; PAGE_BYTES], table: Table, number: u32) -> bool
    ensures { (leaf : RowLeaf) → IsLeafNamed table.0 number page.now leaf → IsTrue result }
{
    let head = page_head(page);
    is_leaf_head(head) && is_named(head, table, number)
}

/// Tests a page for a leaf of the table with this number, before it is read or edited: whole where
/// its bytes come from a device, by its head alone where they were in memory, since they were
/// tested as they came there.
pub(crate) fn passes_as_leaf(
    page: &[u8; PAGE_BYTES],
    in_memory: bool,
    table: Table,
    number: u32,
) -> bool
    ensures { (leaf : RowLeaf) → IsLeafNamed table.0 number page.now leaf → IsTrue result }
{
    if in_memory {
        return may_be_leaf(page, table, number);
    }
    is_leaf_of(page, table, number)
}

/// Whether a page is a leaf of the table, and names itself by this number.
pub(crate) fn is_leaf_of(page: &[u8; PAGE_BYTES], table: Table, number: u32) -> bool
    ensures { IsTrue result ↔ ((leaf : RowLeaf) × IsLeafNamed table.0 number page.now leaf) }
{
    if !check_row_leaf(page) {
        return false;
    }
    is_named(page_head(page), table, number)
}

// Whether the keys of two leaves ascend.
fn keys_ascend(a: &[u8; PAGE_BYTES], b: &[u8; PAGE_BYTES]) -> bool
    requires a { (leaf : RowLeaf) × (row_leaf_of a.now ≡ Some leaf) }
    requires b { (leaf : RowLeaf) × (row_leaf_of b.now ≡ Some leaf) }
    ensures { (leaf next : RowLeaf) → row_leaf_of a.now ≡ Some leaf → row_leaf_of b.now ≡ Some next
        → result ≡ is_sorted by_bytes (leaf.rows ++ next.rows) }
{
    if count_of(a) == 0 {
        return true;
    }
    if count_of(b) == 0 {
        return true;
    }
    let last = key_of(a, count_of(a) - 1);
    last.cmp(&key_of(b, 0)).is_lt()
}

impl PairEdit for SplitAt {
    ghost use Rattle.std.specs.Prelude.{List, ℕ, ⊤};
    ghost use Rattle.leaf_runs.specs.Edits.{Splits};

    ghost may = { λ s x y. ⊤ };

    ghost does = { λ s answer x y x2 y2. Splits s.table.0 s.from s.to s.at answer x y x2 y2 };

    fn edit(&self, a: &mut [u8; PAGE_BYTES], b: &mut [u8; PAGE_BYTES]) -> bool {
        if !is_leaf_of(a, self.table, self.from) {
            return false;
        }
        if !is_leaf_of(b, self.table, self.to) {
            return false;
        }
        if self.at > count_of(a) {
            return false;
        }
        if count_of(b) != 0 {
            return false;
        }
        split(a, b, self.at);
        set_next(b, next_of(a));
        set_next(a, self.to);
        true
    }
}

impl PairEdit for JoinNext {
    ghost use Rattle.std.specs.Prelude.{List, ℕ, ⊤};
    ghost use Rattle.leaf_runs.specs.Edits.{Joins};

    ghost may = { λ s x y. ⊤ };

    ghost does = { λ s answer x y x2 y2. Joins s.table.0 s.first s.second answer x y x2 };

    fn edit(&self, a: &mut [u8; PAGE_BYTES], b: &mut [u8; PAGE_BYTES]) -> bool {
        if !is_leaf_of(a, self.table, self.first) {
            return false;
        }
        if !is_leaf_of(b, self.table, self.second) {
            return false;
        }
        if used_of(a) + used_of(b) > PAGE_ROOM {
            return false;
        }
        if !keys_ascend(a, b) {
            return false;
        }
        let next = next_of(b);
        merge(a, b);
        set_next(a, next);
        true
    }
}
