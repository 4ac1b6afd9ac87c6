//! Undo pages: rows as they were before open transactions changed them.
ghost use Rattle.std.specs.Prelude.{◌≡◌, ◌+◌, ◌-◌, ◌<◌, ◌≤◌, ◌⊎◌, ◌^◌, ℕ, List, [], ◌↔◌, length, drop, IsTrue, None, MatchOption, IfSome};
ghost use Rattle.mdb_bytes.specs.Fields.{Spells, number_limit};
ghost use Rattle.mdb_bytes.specs.TablePages.{longest_value};
ghost use Rattle.mdb_bytes.specs.UndoPages.{UndoEntry, UndoPage, undo_entry_format, undo_page_format};
ghost use Rattle.mdb_bytes.specs.EntryPages.{undo_layout, BeginsWith, IsEntryRun};
ghost use Rattle.mdb_bytes.specs.EntryHeads.{undo_head_in, HasWholeUndo};
ghost use Rattle.mdb_bytes.specs.PageEntries.{FindsEntry, IsUndoEntry, SkipsUndo, undo_entry_at};

use crate::numbers::{byte_at, u16_at, u64_at};
use crate::page_sections::{PageHead, sections_of};
use mdb_model::limits::LAYOUT_NUMBER_END;
/// An entry in the bytes of an undo page: its table, its kind (0 no row stood there before, 1 a
/// row), its number in the file, and the first place and the length of its key and of the value
/// before.
#[derive(Clone, Copy, Debug, PartialEq, Eq)]
pub struct UndoPageEntry {
    pub table: u16,
    pub kind: u8,
    pub number: u64,
    pub key: (usize, usize),
    pub before: (usize, usize),
}

// The fixed front of an entry, which says how many bytes follow.
#[derive(Clone, Copy)]
pub struct UndoHead {
    pub table: u16,
    pub kind: u8,
    pub zero: u8,
    pub key_len: u16,
    pub before_len: u16,
    pub number: u64,
}

fn head_at_front(bytes: &[u8]) -> UndoHead
    requires { 16 ≤ length bytes.now }
    ensures { result ≡ undo_head_in bytes.now }
{
    UndoHead {
        table: u16_at(bytes, 0),
        kind: byte_at(bytes, 2),
        zero: byte_at(bytes, 3),
        key_len: u16_at(bytes, 4),
        before_len: u16_at(bytes, 6),
        number: u64_at(bytes, 8),
    }
}

fn has_kept_lengths(head: UndoHead) -> bool
    ensures { IsTrue result ↔ (((head.kind ≡ 1) ⊎ ((head.kind ≡ 0) × (head.before_len ≡ 0)))
        × ((1 ≤ head.key_len) × (head.key_len ≤ 256) × (head.before_len ≤ longest_value))) }
{
    (head.kind == 1 || head.kind == 0 && head.before_len == 0)
        && head.key_len >= 1
        && head.key_len <= 256
        && head.before_len <= 1500
}

fn has_kept_numbers(head: UndoHead) -> bool
    ensures { IsTrue result ↔ (((1 ≤ head.table) × (head.table ≤ 500)) × (head.zero ≡ 0)
        × ((1 ≤ head.number) × (head.number < number_limit))) }
{
    head.table >= 1
        && head.table <= 500
        && head.zero == 0
        && head.number >= 1
        && head.number < LAYOUT_NUMBER_END
}

// The front of the entry that stands at the front; none where the bytes have no room for it.
fn whole_head(bytes: &[u8]) -> Option<UndoHead>
    ensures { MatchOption result (HasWholeUndo bytes.now (undo_head_in bytes.now) → ⊥)
        (λ head. (head ≡ undo_head_in bytes.now) × HasWholeUndo bytes.now head) }
{
    if bytes.len() < 16 {
        return None;
    }
    let head = head_at_front(bytes);
    if bytes.len() < 16 + head.key_len as usize + head.before_len as usize {
        return None;
    }
    Some(head)
}

fn behind(bytes: &[u8], head: UndoHead) -> &[u8]
    requires { HasWholeUndo bytes.now head }
    ensures { result.now ≡ drop (16 + head.key_len + head.before_len) bytes.now }
{
    bytes
        .split_at(16 + head.key_len as usize + head.before_len as usize)
        .1
}

// What stands after the entry at the front; none where the bytes begin with no entry.
fn behind_first(bytes: &[u8]) -> Option<&[u8]>
    ensures { MatchOption result
        ((v : UndoEntry) → (rest : List ℕ)
        → BeginsWith (undo_entry_format longest_value) v bytes.now rest → ⊥)
        (λ rest. (v : UndoEntry) × BeginsWith (undo_entry_format longest_value) v bytes.now
        rest.now) }
{
    let Some(head) = whole_head(bytes) else {
        return None;
    };
    if !has_kept_lengths(head) {
        return None;
    }
    if !has_kept_numbers(head) {
        return None;
    }
    Some(behind(bytes, head))
}

// Whether the bytes are so many entries.
fn are_entries(entries: &[u8], count: usize) -> bool
    ensures { IsTrue result ↔ IsEntryRun (undo_layout longest_value) None count 64 entries.now [] }
{
    let mut rest = entries;
    for _ in 0..count {
        let Some(behind) = behind_first(rest) else {
            return false;
        };
        rest = behind;
    }
    rest.is_empty()
}

fn is_undo_head(head: PageHead) -> bool
    ensures { IsTrue result ↔ ((head.kind ≡ 3) × (head.level ≡ 0) × (head.table ≡ 0)) }
{
    head.kind == 3 && head.level == 0 && head.table == 0
}

/// Whether the bytes are an undo page, with values of at most 1,500 bytes. It walks once over the
/// entries, where they stand.
pub fn check_undo_page(bytes: &[u8]) -> bool
    ensures { IsTrue result ↔ ((v : UndoPage)
        × Spells (undo_page_format longest_value) v bytes.now) }
{
    let Some(page) = sections_of(bytes, 0) else {
        return false;
    };
    if !is_undo_head(page.head) {
        return false;
    }
    are_entries(page.entries, page.head.count as usize)
}

// What stands after the first n entries.
fn skip(bytes: &[u8], count: usize) -> Option<&[u8]>
    ensures { SkipsUndo bytes.now count result }
{
    let mut rest = bytes;
    for _ in 0..count {
        let Some(head) = whole_head(rest) else {
            return None;
        };
        rest = behind(rest, head);
    }
    Some(rest)
}

fn entry_of(place: usize, head: UndoHead) -> UndoPageEntry
    requires { place + 16 + head.key_len + head.before_len < 2 ^ 64 }
    ensures { result ≡ undo_entry_at place head }
{
    let key_len = head.key_len as usize;
    UndoPageEntry {
        table: head.table,
        kind: head.kind,
        number: head.number,
        key: (place + 16, key_len),
        before: (place + 16 + key_len, head.before_len as usize),
    }
}

/// The entry of an undo page with this number, counted from 0; none where there are no more. Each
/// call goes over the entries in front. Values may have any length. Of bytes that are no undo page
/// it is only known that the places lie within them.
pub fn undo_page_entry(bytes: &[u8], index: usize) -> Option<UndoPageEntry>
    ensures entry { (longest : ℕ) → (v : UndoPage) → Spells (undo_page_format longest) v bytes.now
        → FindsEntry (IsUndoEntry bytes.now) v.entries index result }
    ensures within { IfSome result (λ e. (e.key.0 + e.key.1 ≤ length bytes.now)
        × (e.before.0 + e.before.1 ≤ length bytes.now)) }
{
    if bytes.len() < 64 {
        return None;
    }
    if index >= u16_at(bytes, 8) as usize {
        return None;
    }
    let body = bytes.split_at(64).1;
    let Some(rest) = skip(body, index) else {
        return None;
    };
    let Some(head) = whole_head(rest) else {
        return None;
    };
    Some(entry_of(bytes.len() - rest.len(), head))
}
