//! A page as a sorted list of entries: rows on a leaf, separators with their children above.
ghost use Rattle.std.specs.Prelude.{◌≡◌, ◌+◌, ◌-◌, ◌*◌, ◌^◌, ◌<◌, ◌≤◌, ◌↔◌, ℕ, [], ◌++◌};
ghost use Rattle.std.specs.Prelude.{List, length, take, drop, Bool, true, false, Result};
ghost use Rattle.std.specs.Prelude.{MatchResult, IsTrue};
ghost use Rattle.std.specs.List.{insert, remove};
ghost use Rattle.std.specs.declared.cmp.Ordering.TheVariants.{Less};
ghost use Rattle.mdb_model.specs.Script.{is_table};
ghost use Rattle.mdb_bytes.specs.Fields.{number_at};
ghost use Rattle.row_page.specs.Page.{joined_cells, used};
ghost use Rattle.row_page.specs.Entries.{
  PageEntry,
  IsPage,
  Becomes,
  HasKey,
  IsPlaceFor,
  KeepsEntry,
  cells_of,
  used_bytes,
  entries_of,
  page_entry_at,
  entry_cost,
  page_head_of,
  is_leaf,
  kind_on,
  key_at,
  by_bytes,
  cell_len,
  child_number,
};

use crate::body::{append_cells, insert_cell, remove_cell, split_cells};
use crate::parts::{HEAD_BYTES, write_four, write_head, write_two};
use mdb_bytes::{byte_at, u16_at, u32_at};
use mdb_model::limits::{PAGE_BYTES, PAGE_ROOM};
use mdb_model::name::Table;
use std::cmp::Ordering;

/// The number of entries. Of bytes that are no page it answers what stands there.
pub fn count_of(page: &[u8; PAGE_BYTES]) -> usize
    ensures count { IsPage page.now → result ≡ length (entries_of page.now) }
    ensures small { result < 2 ^ 16 }
{
    u16_at(page, 8) as usize
}

// The bytes of the cells and of their slots.
fn cells_used(page: &[u8; PAGE_BYTES]) -> usize
    ensures used { IsPage page.now → result ≡ used (cells_of page.now) }
    ensures small { result < 2 ^ 16 }
{
    u16_at(page, 10) as usize
}

/// The bytes that its entries take, at most 8,128: for each row `8 + key + value`, for each child
/// `8 + key`. Of bytes that are no page it answers what stands there.
pub fn used_of(page: &[u8; PAGE_BYTES]) -> usize
    ensures used { IsPage page.now → result ≡ used_bytes page.now }
    ensures small { result < 2 ^ 16 }
{
    cells_used(page)
}

/// Whether it is a row leaf, and not an index page.
#[tactic(auto, unfolding(crate::specs::Entries::page_head_of))]
pub fn is_row_leaf(page: &[u8; PAGE_BYTES]) -> bool
    ensures { result ≡ is_leaf (page_head_of page.now) }
{
    byte_at(page, 0) == 1
}

/// Its level: 0 of a row leaf, 1 to 7 of an index page.
#[tactic(auto, unfolding(crate::specs::Entries::page_head_of))]
pub fn level_of(page: &[u8; PAGE_BYTES]) -> u8
    ensures { result ≡ (page_head_of page.now).level }
{
    byte_at(page, 1)
}

/// The page that its header names as the next one, 0 for none. An index page names none.
#[tactic(auto, unfolding(crate::specs::Entries::page_head_of))]
pub fn next_of(page: &[u8; PAGE_BYTES]) -> u32
    ensures { result ≡ (page_head_of page.now).next }
{
    u32_at(page, 12)
}

// The number of two bytes at a place, or 0 where the page ends before.
fn two_at(page: &[u8; PAGE_BYTES], at: usize) -> usize
    ensures two { at + 2 ≤ 8192 → result ≡ number_at 2 at page.now }
    ensures small { result < 2 ^ 16 }
{
    if at > PAGE_BYTES - 2 {
        return 0;
    }
    u16_at(page, at) as usize
}

// The bytes from a place to an end, or none where the page ends before.
fn bytes_to(page: &[u8; PAGE_BYTES], at: usize, end: usize) -> &[u8]
    requires { at ≤ end }
    ensures { end ≤ 8192 → result.now ≡ take (end - at) (drop at page.now) }
{
    if end > PAGE_BYTES {
        return &[];
    }
    let (_, back) = page.split_at(at);
    back.split_at(end - at).0
}

// Where an entry begins, or 0 for an index past all that a page may have.
fn slot_at(page: &[u8; PAGE_BYTES], index: usize) -> usize
    ensures slot { IsPage page.now → index < length (entries_of page.now)
        → result ≡ 64 + length (joined_cells (take index (cells_of page.now))) }
    ensures small { result < 2 ^ 16 }
{
    if index > PAGE_ROOM / 2 {
        return 0;
    }
    two_at(page, PAGE_BYTES - 2 - 2 * index)
}

/// The key of the entry at an index. Of bytes that are no page, and past the entries, it answers some
/// of the bytes, or none.
pub fn key_of(page: &[u8; PAGE_BYTES], index: usize) -> &[u8]
    ensures { IsPage page.now → index < length (entries_of page.now)
        → result.now ≡ key_at (entries_of page.now) index }
{
    let at = slot_at(page, index);
    let n = two_at(page, at);
    bytes_to(page, at + 6, at + 6 + n)
}

/// The place of the entry with this key; where there is none, the place where it would stand. It
/// looks at no more keys than the number of entries has binary digits. Of bytes that are no page it
/// answers some number.
pub fn find(page: &[u8; PAGE_BYTES], key: &[u8]) -> Result<usize, usize>
    ensures { IsPage page.now → MatchResult result (HasKey (entries_of page.now) key.now)
        (IsPlaceFor (entries_of page.now) key.now) }
{
    let mut low = 0;
    let mut high = count_of(page);
    while low < high {
        let middle = (low + high) / 2;
        match key_of(page, middle).cmp(&key) {
            Ordering::Less => low = middle + 1,
            Ordering::Equal => return Ok(middle),
            Ordering::Greater => high = middle,
        }
    }
    Err(low)
}

// The bytes that the cell of an entry takes.
fn size_of(leaf: bool, key: &[u8], rest: &[u8]) -> usize
    requires { (length key.now ≤ 256) × (length rest.now ≤ 2000) }
    ensures { result ≡ cell_len leaf (record { key = key.now; rest = rest.now }) }
{
    if leaf {
        6 + key.len() + rest.len()
    } else {
        2 + rest.len() + key.len()
    }
}

// Where cell i begins or would begin.
fn start_of(page: &[u8; PAGE_BYTES], index: usize) -> usize
    ensures start { IsPage page.now → index ≤ length (entries_of page.now)
        → result ≡ 64 + length (joined_cells (take index (cells_of page.now))) }
    ensures small { result ≤ 2 ^ 16 + 64 }
{
    let count = count_of(page);
    if index < count {
        slot_at(page, index)
    } else {
        HEAD_BYTES + cells_used(page).saturating_sub(2 * count)
    }
}

// Whether a page of so many entries, which take so many bytes with their slots, may have a cell from
// one place to another.
fn may_have(count: usize, total: usize, start: usize, end: usize) -> bool
    requires { (count < 2 ^ 16) × (total < 2 ^ 16) × (end ≤ 2 ^ 16 + 64) }
    ensures { IsTrue result
        ↔ ((64 ≤ start) × (start ≤ end) × (end + 2 * count ≤ 64 + total) × (total ≤ PAGE_ROOM)) }
{
    HEAD_BYTES <= start
        && start <= end
        && end + 2 * count <= HEAD_BYTES + total
        && total <= PAGE_ROOM
}

/// Puts an entry in at the place that `find` answers for its key. `rest` is the value of the row,
/// or the four bytes of the child on an index page. It answers false, and leaves the page, where
/// there is no room, or where the numbers of the head or the slot of the place cannot be those of a
/// page; nothing else is tested.
pub fn insert(page: &mut [u8; PAGE_BYTES], at: usize, key: &[u8], rest: &[u8]) -> bool
    requires lengths { (length key.now ≤ 256) × (length rest.now ≤ 2000) }
    ensures inserted { IsPage page.old → IsPlaceFor (entries_of page.old) key.now at
        → KeepsEntry (is_leaf (page_head_of page.old)) (record { key = key.now; rest = rest.now })
        → used_bytes page.old
        + entry_cost (is_leaf (page_head_of page.old)) (record { key = key.now; rest = rest.now })
        ≤ PAGE_ROOM
        → (result ≡ true) × Becomes page.old page.new
        (insert (entries_of page.old) at (record { key = key.now; rest = rest.now })) }
    ensures refused { result ≡ false → page.new ≡ page.old }
{
    let leaf = is_row_leaf(page);
    let count = count_of(page);
    let total = cells_used(page);
    let n = size_of(leaf, key, rest);
    let start = start_of(page, at);
    if at > count || !may_have(count, total, start, start) || total + n + 2 > PAGE_ROOM {
        return false;
    }
    let (head, body) = page.split_at_mut(HEAD_BYTES);
    insert_cell(body, count, at, start - HEAD_BYTES, n, leaf, key, rest);
    write_two(head, 8, (count + 1) as u16);
    write_two(head, 10, (total + n + 2) as u16);
    true
}

/// Takes entry i out. It answers false, and leaves the page, where there is no such entry, or where
/// the numbers of the head or the slot of the entry cannot be those of a page; nothing else is
/// tested.
pub fn remove(page: &mut [u8; PAGE_BYTES], at: usize) -> bool
    ensures removed { IsPage page.old → at < length (entries_of page.old)
        → (result ≡ true) × Becomes page.old page.new (remove (entries_of page.old) at) }
    ensures refused { result ≡ false → page.new ≡ page.old }
{
    let count = count_of(page);
    let total = cells_used(page);
    if at >= count {
        return false;
    }
    let start = start_of(page, at);
    let end = start_of(page, at + 1);
    if !may_have(count, total, start, end) {
        return false;
    }
    let n = end - start;
    let (head, body) = page.split_at_mut(HEAD_BYTES);
    remove_cell(body, count, at, start - HEAD_BYTES, n);
    write_two(head, 8, (count - 1) as u16);
    write_two(head, 10, (total - n - 2) as u16);
    true
}

/// The page below the entry at an index, of an index page. Of other bytes, and past the entries, it
/// answers some number.
pub fn child_of(page: &[u8; PAGE_BYTES], index: usize) -> u32
    ensures { IsPage page.now → is_leaf (page_head_of page.now) ≡ false
        → index < length (entries_of page.now)
        → result ≡ child_number (page_entry_at (entries_of page.now) index) }
{
    let at = slot_at(page, index);
    if at > PAGE_BYTES - 6 {
        return 0;
    }
    u32_at(page, at + 2)
}

/// The value of row i of a row leaf. Of other bytes, and past the rows, it answers some of them, or
/// none.
pub fn value_of(page: &[u8; PAGE_BYTES], index: usize) -> &[u8]
    ensures { IsPage page.now → is_leaf (page_head_of page.now) ≡ true
        → index < length (entries_of page.now)
        → result.now ≡ (page_entry_at (entries_of page.now) index).rest }
{
    let at = slot_at(page, index);
    let key_len = two_at(page, at);
    let value_len = two_at(page, at + 2);
    let start = at + 6 + key_len;
    bytes_to(page, start, start + value_len)
}

/// Moves the entries from place `at` on to a page of the same kind that has none.
pub fn split(from: &mut [u8; PAGE_BYTES], to: &mut [u8; PAGE_BYTES], at: usize)
    requires from { IsPage from.old }
    requires to { IsPage to.old }
    requires empty { length (entries_of to.old) ≡ 0 }
    requires kinds { is_leaf (page_head_of to.old) ≡ is_leaf (page_head_of from.old) }
    requires within { at ≤ length (entries_of from.old) }
    ensures first { Becomes from.old from.new (take at (entries_of from.old)) }
    ensures second { Becomes to.old to.new (drop at (entries_of from.old)) }
{
    let count = count_of(from);
    let size = cells_used(from) - 2 * count;
    let place = start_of(from, at) - HEAD_BYTES;
    let (from_head, from_body) = from.split_at_mut(HEAD_BYTES);
    let (to_head, to_body) = to.split_at_mut(HEAD_BYTES);
    split_cells(from_body, to_body, count, at, place, size);
    write_two(from_head, 8, at as u16);
    write_two(from_head, 10, (place + 2 * at) as u16);
    write_two(to_head, 8, (count - at) as u16);
    write_two(to_head, 10, (size - place + 2 * (count - at)) as u16);
}

/// Takes all entries out.
pub fn clear(page: &mut [u8; PAGE_BYTES])
    requires { IsPage page.old }
    ensures { Becomes page.old page.new [] }
{
    let (head, body) = page.split_at_mut(HEAD_BYTES);
    body.fill(0);
    write_two(head, 8, 0);
    write_two(head, 10, 0);
}

/// Moves the entries of another page of the same kind after those of this one.
pub fn merge(into: &mut [u8; PAGE_BYTES], from: &mut [u8; PAGE_BYTES])
    requires into { IsPage into.old }
    requires from { IsPage from.old }
    requires kinds { is_leaf (page_head_of from.old) ≡ is_leaf (page_head_of into.old) }
    requires room { used_bytes into.old + used_bytes from.old ≤ PAGE_ROOM }
    requires below { (i j : ℕ) → i < length (entries_of into.old) → j < length (entries_of from.old)
        → by_bytes (key_at (entries_of into.old) i) (key_at (entries_of from.old) j) ≡ Less }
    ensures first { Becomes into.old into.new (entries_of into.old ++ entries_of from.old) }
    ensures second { Becomes from.old from.new [] }
{
    let count = count_of(into);
    let total = cells_used(into);
    let other_count = count_of(from);
    let other_total = cells_used(from);
    let (head, body) = into.split_at_mut(HEAD_BYTES);
    let (_, other) = from.split_at(HEAD_BYTES);
    append_cells(
        body,
        other,
        count,
        total - 2 * count,
        other_count,
        other_total - 2 * other_count,
    );
    write_two(head, 8, (count + other_count) as u16);
    write_two(head, 10, (total + other_total) as u16);
    clear(from);
}

// The kind of the pages on a level.
fn kind_for(level: u8) -> u8
    ensures { result ≡ kind_on level }
{
    if level == 0 { 1 } else { 2 }
}

/// Makes a page without entries, whatever stood there: a row leaf on level 0, and an index page
/// above. `own` is the number of the page.
pub fn start(page: &mut [u8; PAGE_BYTES], level: u8, table: Table, own: u32)
    requires level { level ≤ 7 }
    requires table { IsTrue (is_table table.0) }
    ensures page { IsPage page.new }
    ensures head { page_head_of page.new
        ≡ record { kind = kind_on level; level = level; table = table.0; own = own; next = 0 } }
    ensures empty { entries_of page.new ≡ [] }
{
    let (head, body) = page.split_at_mut(HEAD_BYTES);
    write_head(head, kind_for(level), level, table.0, own);
    body.fill(0);
}

/// Sets the page that a row leaf names as the next one, 0 for none.
pub fn set_next(page: &mut [u8; PAGE_BYTES], next: u32)
    requires page { IsPage page.old }
    requires leaf { is_leaf (page_head_of page.old) ≡ true }
    ensures page { IsPage page.new }
    ensures head { page_head_of page.new ≡ record (page_head_of page.old) { next = next } }
    ensures entries { entries_of page.new ≡ entries_of page.old }
{
    let (head, _body) = page.split_at_mut(HEAD_BYTES);
    write_four(head, 12, next);
}
