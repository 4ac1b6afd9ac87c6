//! A row leaf as a sorted list of rows, edited in place. The bytes may be any: what is not such a
//! leaf stays as long as it is, and gives no fault.
ghost use Rattle.std.specs.Prelude.{◌≡◌, ◌+◌, ◌<◌, ◌≤◌, ℕ};
ghost use Rattle.std.specs.Prelude.{List, length, Bool, true, false, IsTrue, Some, None};
ghost use Rattle.std.specs.FinMap.{find as row_of};
ghost use Rattle.std.specs.List.{insert as with_entry};
ghost use Rattle.mdb_model.specs.Script.{is_key, is_value};
ghost use Rattle.mdb_model.specs.declared.limits.TheConstants.{PAGE_ROOM};
ghost use Rattle.mdb_bytes.specs.TablePages.{RowLeaf};
ghost use Rattle.mdb_bytes.specs.PageReadings.{row_leaf_of};
ghost use Rattle.row_page.specs.Entries.{PageEntry, IsPage, Becomes, IsPlaceFor, entries_of, page_head_of, by_bytes};
ghost use Rattle.row_page.specs.Entries.{is_leaf, used_bytes};
ghost use Rattle.leaf_runs.specs.Edits.{IsTaken, IsInserted, IsPut};

use mdb_model::limits::{PAGE_BYTES, PAGE_ROOM};
use row_page::{find, insert, remove, used_of};

/// Takes the row with a key out; false where a leaf has no such row.
pub(crate) fn del_row(page: &mut [u8; PAGE_BYTES], key: &[u8]) -> bool
    ensures { (leaf : RowLeaf) → row_leaf_of page.old ≡ Some leaf
        → IsTaken result leaf key.now page.new }
{
    match find(page, key) {
        Ok(at) => remove(page, at),
        Err(_) => false,
    }
}

// Puts a new row in at its place, where there is room.
fn insert_at(page: &mut [u8; PAGE_BYTES], at: usize, key: &[u8], value: &[u8]) -> bool
    requires key { IsTrue (is_key key.now) }
    requires value { IsTrue (is_value value.now) }
    ensures done { IsPage page.old → is_leaf (page_head_of page.old) ≡ true
        → IsPlaceFor (entries_of page.old) key.now at → result ≡ true
        → Becomes page.old page.new
        (with_entry (entries_of page.old) at (record { key = key.now; rest = value.now })) }
    ensures full { IsPage page.old → is_leaf (page_head_of page.old) ≡ true
        → IsPlaceFor (entries_of page.old) key.now at → result ≡ false
        → (page.new ≡ page.old)
        × (PAGE_ROOM < used_bytes page.old + (8 + length key.now + length value.now)) }
{
    if used_of(page) + 8 + key.len() + value.len() > PAGE_ROOM {
        return false;
    }
    insert(page, at, key, value)
}

// Puts a new row in, where there is room.
fn insert_row(page: &mut [u8; PAGE_BYTES], key: &[u8], value: &[u8]) -> bool
    requires key { IsTrue (is_key key.now) }
    requires value { IsTrue (is_value value.now) }
    ensures { (leaf : RowLeaf) → row_leaf_of page.old ≡ Some leaf
        → row_of by_bytes key.now leaf.rows ≡ None
        → IsInserted result leaf key.now value.now page.old page.new }
{
    match find(page, key) {
        Ok(_) => false,
        Err(at) => insert_at(page, at, key, value),
    }
}

/// Sets the value of a row in a leaf; false where there is no room for it, and then the leaf has no
/// row with the key.
pub(crate) fn put_row(page: &mut [u8; PAGE_BYTES], key: &[u8], value: &[u8]) -> bool
    requires key { IsTrue (is_key key.now) }
    requires value { IsTrue (is_value value.now) }
    ensures { (leaf : RowLeaf) → row_leaf_of page.old ≡ Some leaf
        → IsPut result leaf key.now value.now page.new }
{
    del_row(page, key);
    insert_row(page, key, value)
}
