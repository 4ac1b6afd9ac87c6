//! Row leaves: pages of rows by ascending key.
ghost use Rattle.std.specs.Prelude.{◌≡◌, ◌+◌, ◌≤◌, ℕ, List, ◌↔◌, length, IsTrue, None, MatchOption, IfSome};
ghost use Rattle.mdb_bytes.specs.Fields.{Spells};
ghost use Rattle.mdb_bytes.specs.TablePages.{Row, RowLeaf, row_format, row_leaf_format, longest_value};
ghost use Rattle.mdb_bytes.specs.EntryPages.{row_layout, BeginsWith, IsEntryRun};
ghost use Rattle.mdb_bytes.specs.EntryHeads.{row_head_in, KeepsRowHead};
ghost use Rattle.mdb_bytes.specs.PageEntries.{FindsEntry, IsRowEntry};

use crate::numbers::u16_at;
use crate::page_sections::{PageHead, entry_front, may_stand, sections_of, slots_in_front};

/// A row in the bytes of a row leaf: the first place and the length of its key and of its value.
#[derive(Clone, Copy, Debug, PartialEq, Eq)]
pub struct RowLeafEntry {
    pub key: (usize, usize),
    pub value: (usize, usize),
}

// The fixed front of a row, which says how many bytes follow.
#[derive(Clone, Copy)]
pub struct RowHead {
    pub key_len: u16,
    pub value_len: u16,
    pub zero: u16,
}

fn head_at_front(bytes: &[u8]) -> RowHead
    requires { 6 ≤ length bytes.now }
    ensures { result ≡ row_head_in bytes.now }
{
    RowHead {
        key_len: u16_at(bytes, 0),
        value_len: u16_at(bytes, 2),
        zero: u16_at(bytes, 4),
    }
}

fn is_kept(head: RowHead) -> bool
    ensures { IsTrue result ↔ KeepsRowHead head }
{
    head.key_len >= 1 && head.key_len <= 256 && head.value_len <= 1500 && head.zero == 0
}

// The key of the row at the front, and what stands after the row; none where the bytes begin with
// no row.
fn first_row(bytes: &[u8]) -> Option<(&[u8], &[u8])>
    ensures { MatchOption result
        ((row : Row) → (rest : List ℕ) → BeginsWith (row_format longest_value) row bytes.now rest
        → ⊥)
        (λ r. (value : List ℕ) × BeginsWith (row_format longest_value) (r.0.now, value) bytes.now
        r.1.now) }
{
    if bytes.len() < 6 {
        return None;
    }
    let head = head_at_front(bytes);
    if !is_kept(head) {
        return None;
    }
    let body = bytes.split_at(6).1;
    let key_len = head.key_len as usize;
    let value_len = head.value_len as usize;
    if body.len() < key_len + value_len {
        return None;
    }
    let (key, behind) = body.split_at(key_len);
    Some((key, behind.split_at(value_len).1))
}

// Whether the bytes are so many rows by ascending key, and these are their slots.
fn are_rows(rows: &[u8], slots: &[u8], count: usize) -> bool
    requires { length rows.now ≤ 8128 }
    ensures { IsTrue result ↔ IsEntryRun (row_layout longest_value) None count 64 rows.now slots.now }
{
    let mut rest = rows;
    let mut left = slots;
    let mut last: Option<&[u8]> = None;
    for _ in 0..count {
        let Some((key, behind)) = first_row(rest) else {
            return false;
        };
        if !may_stand(last, key) {
            return false;
        }
        let Some(others) = slots_in_front(left, 64 + (rows.len() - rest.len())) else {
            return false;
        };
        last = Some(key);
        left = others;
        rest = behind;
    }
    rest.is_empty() && left.is_empty()
}

fn is_leaf_head(head: PageHead) -> bool
    ensures { IsTrue result ↔ ((head.kind ≡ 1) × (head.level ≡ 0) × (1 ≤ head.table)
        × (head.table ≤ 500)) }
{
    head.kind == 1 && head.level == 0 && head.table >= 1 && head.table <= 500
}

/// Whether the bytes are a row leaf, with values of at most 1,500 bytes. It walks once over the
/// rows, where they stand.
pub fn check_row_leaf(bytes: &[u8]) -> bool
    ensures { IsTrue result ↔ ((v : RowLeaf) × Spells (row_leaf_format longest_value) v bytes.now) }
{
    let Some(page) = sections_of(bytes, 2) else {
        return false;
    };
    if !is_leaf_head(page.head) {
        return false;
    }
    are_rows(page.entries, page.slots, page.head.count as usize)
}

/// The row of a row leaf with this number, counted from 0; none where there are no more rows. Its
/// slot tells its place. Values may have any length. Of bytes that are no row leaf it is only known
/// that the places lie within them.
pub fn row_leaf_entry(bytes: &[u8], index: usize) -> Option<RowLeafEntry>
    ensures entry { (longest : ℕ) → (v : RowLeaf) → Spells (row_leaf_format longest) v bytes.now
        → FindsEntry (IsRowEntry bytes.now) v.rows index result }
    ensures within { IfSome result (λ e. (e.key.0 + e.key.1 ≤ length bytes.now)
        × (e.value.0 + e.value.1 ≤ length bytes.now)) }
{
    let Some((place, front)) = entry_front(bytes, index) else {
        return None;
    };
    if front.len() < 6 {
        return None;
    }
    let head = head_at_front(front);
    let key_len = head.key_len as usize;
    let value_len = head.value_len as usize;
    if front.len() < 6 + key_len + value_len {
        return None;
    }
    Some(RowLeafEntry {
        key: (place + 6, key_len),
        value: (place + 6 + key_len, value_len),
    })
}
