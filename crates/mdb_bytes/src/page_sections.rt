//! The parts of a page of entries: its header, the entries, and their slots.
ghost use Rattle.std.specs.Prelude.{◌≡◌, ◌+◌, ◌<◌, ◌≤◌, ◌^◌, ◌++◌, [], ◌∷◌, ℕ, List, ◌↔◌, length, replicate, IsTrue, Some, None, MatchOption};
ghost use Rattle.mdb_bytes.specs.Fields.{Two, Spells, spelled};
ghost use Rattle.mdb_bytes.specs.TablePages.{RowLeaf, IndexPage, row_leaf_format, index_format};
ghost use Rattle.mdb_bytes.specs.UndoPages.{UndoPage, undo_page_format};
ghost use Rattle.mdb_bytes.specs.EntryPages.{page_head_in, leaf_head, index_head, undo_head, FindsSections, FindsFront, key_follows, key_in};

use crate::numbers::{byte_at, u16_at, u32_at};
use mdb_model::limits::PAGE_BYTES;
use std::cmp::Ordering;

// how many bytes of a header its fields take, and how many are zero after them
const NAMED_LEN: usize = 16;

const UNNAMED_LEN: usize = 48;

// how many bytes of a page are left after its header
const PAGE_ROOM: usize = 8128;

// how many slots of two bytes have room
const MOST_SLOTS: usize = 4064;

/// What the first 64 bytes of a logical page say.
#[derive(Clone, Copy, Debug, PartialEq, Eq)]
pub struct PageHead {
    pub kind: u8,
    pub level: u8,
    pub table: u16,
    pub number: u32,
    pub count: u16,
    pub used: u16,
    pub next: u32,
}

/// The header of a page, the bytes of its entries and those of its slots.
#[derive(Clone, Copy)]
pub struct Sections<'a> {
    pub head: PageHead,
    pub entries: &'a [u8],
    pub slots: &'a [u8],
}

fn head_at_front(bytes: &[u8]) -> PageHead
    requires { 64 ≤ length bytes.now }
    ensures { result ≡ page_head_in bytes.now }
{
    PageHead {
        kind: byte_at(bytes, 0),
        level: byte_at(bytes, 1),
        table: u16_at(bytes, 2),
        number: u32_at(bytes, 4),
        count: u16_at(bytes, 8),
        used: u16_at(bytes, 10),
        next: u32_at(bytes, 12),
    }
}

/// The header of a page, whatever its kind. Of other bytes it tells what stands at its places.
pub fn page_head(bytes: &[u8]) -> PageHead
    requires { 64 ≤ length bytes.now }
    ensures read { result ≡ page_head_in bytes.now }
    ensures row_leaf { (longest : ℕ) → (v : RowLeaf) → Spells (row_leaf_format longest) v bytes.now
        → result ≡ leaf_head v }
    ensures index_page { (v : IndexPage) → Spells index_format v bytes.now → result ≡ index_head v }
    ensures undo_page { (longest : ℕ) → (v : UndoPage)
        → Spells (undo_page_format longest) v bytes.now → result ≡ undo_head v }
{
    head_at_front(bytes)
}

fn is_zero(bytes: &[u8]) -> bool
    ensures { IsTrue result ↔ (bytes.now ≡ replicate (length bytes.now) 0) }
{
    bytes.iter().all(|byte| *byte == 0)
}

/// The parts of a page whose slots have so many bytes each.
pub fn sections_of(bytes: &[u8], slot_len: usize) -> Option<Sections<'_>>
    requires { slot_len ≤ 2 }
    ensures { FindsSections slot_len bytes.now result }
{
    if bytes.len() != PAGE_BYTES {
        return None;
    }
    let head = head_at_front(bytes);
    let (unnamed, body) = bytes.split_at(NAMED_LEN).1.split_at(UNNAMED_LEN);
    if !is_zero(unnamed) {
        return None;
    }
    let used = head.used as usize;
    let slots_len = slot_len * head.count as usize;
    if used > PAGE_ROOM || slots_len > used {
        return None;
    }
    let (entries, behind) = body.split_at(used - slots_len);
    let (gap, slots) = behind.split_at(PAGE_ROOM - used);
    if !is_zero(gap) {
        return None;
    }
    Some(Sections {
        head,
        entries,
        slots,
    })
}

/// Whether an entry with this key may stand after one with the last key.
pub fn may_stand(last: Option<&[u8]>, key: &[u8]) -> bool
    ensures { result ≡ key_follows (key_in last.entry) (Some key.now) }
{
    match last {
        None => true,
        Some(last) => match last.cmp(&key) {
            Ordering::Less => true,
            Ordering::Equal | Ordering::Greater => false,
        },
    }
}

/// The slots in front of the last one; none where that is not the slot of an entry at this place.
pub fn slots_in_front(slots: &[u8], place: usize) -> Option<&[u8]>
    requires { place < 2 ^ 16 }
    ensures { MatchOption result
        ((others : List ℕ) → slots.now ≡ others ++ spelled (Two place ∷ []) → ⊥)
        (λ others. slots.now ≡ others.now ++ spelled (Two place ∷ [])) }
{
    if slots.len() < 2 {
        return None;
    }
    let (others, slot) = slots.split_at(slots.len() - 2);
    if u16_at(slot, 0) as usize != place {
        return None;
    }
    Some(others)
}

/// The place of an entry by its slot, and what stands from there on.
pub fn entry_front(bytes: &[u8], index: usize) -> Option<(usize, &[u8])>
    ensures { FindsFront bytes.now index result }
{
    if bytes.len() != PAGE_BYTES || index >= MOST_SLOTS {
        return None;
    }
    if index >= u16_at(bytes, 8) as usize {
        return None;
    }
    let place = u16_at(bytes, PAGE_BYTES - 2 * (index + 1)) as usize;
    if place > PAGE_BYTES {
        return None;
    }
    Some((place, bytes.split_at(place).1))
}
