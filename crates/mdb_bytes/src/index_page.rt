//! Index pages: pages of children by ascending separator.
ghost use Rattle.std.specs.Prelude.{◌≡◌, ◌+◌, ◌≤◌, ℕ, List, ◌↔◌, length, IsTrue, None, MatchOption, IfSome};
ghost use Rattle.mdb_bytes.specs.Fields.{Spells};
ghost use Rattle.mdb_bytes.specs.TablePages.{Child, IndexPage, child_format, index_format};
ghost use Rattle.mdb_bytes.specs.EntryPages.{child_layout, BeginsWith, IsEntryRun};
ghost use Rattle.mdb_bytes.specs.EntryHeads.{child_head_in};
ghost use Rattle.mdb_bytes.specs.PageEntries.{FindsEntry, IsChildEntry};

use crate::numbers::{u16_at, u32_at};
use crate::page_sections::{PageHead, entry_front, may_stand, sections_of, slots_in_front};

/// A child in the bytes of an index page: the number of its page, and the first place and the
/// length of its separator.
#[derive(Clone, Copy, Debug, PartialEq, Eq)]
pub struct IndexPageEntry {
    pub child: u32,
    pub key: (usize, usize),
}

// The fixed front of a child, which says how many bytes follow.
#[derive(Clone, Copy)]
pub struct ChildHead {
    pub key_len: u16,
    pub child: u32,
}

fn head_at_front(bytes: &[u8]) -> ChildHead
    requires { 6 ≤ length bytes.now }
    ensures { result ≡ child_head_in bytes.now }
{
    ChildHead {
        key_len: u16_at(bytes, 0),
        child: u32_at(bytes, 2),
    }
}

// The separator of the child at the front, and what stands after the child; none where the bytes
// begin with no child.
fn first_child(bytes: &[u8]) -> Option<(&[u8], &[u8])>
    ensures { MatchOption result
        ((child : Child) → (rest : List ℕ) → BeginsWith child_format child bytes.now rest → ⊥)
        (λ r. (page : ℕ) × BeginsWith child_format (r.0.now, page) bytes.now r.1.now) }
{
    if bytes.len() < 6 {
        return None;
    }
    let head = head_at_front(bytes);
    if head.key_len > 256 {
        return None;
    }
    let body = bytes.split_at(6).1;
    let key_len = head.key_len as usize;
    if body.len() < key_len {
        return None;
    }
    Some(body.split_at(key_len))
}

// Whether the bytes are so many children by ascending separator, and these are their slots.
fn are_children(children: &[u8], slots: &[u8], count: usize) -> bool
    requires { length children.now ≤ 8128 }
    ensures { IsTrue result ↔ IsEntryRun child_layout None count 64 children.now slots.now }
{
    let mut rest = children;
    let mut left = slots;
    let mut last: Option<&[u8]> = None;
    for _ in 0..count {
        let Some((key, behind)) = first_child(rest) else {
            return false;
        };
        if !may_stand(last, key) {
            return false;
        }
        let Some(others) = slots_in_front(left, 64 + (children.len() - rest.len())) else {
            return false;
        };
        last = Some(key);
        left = others;
        rest = behind;
    }
    rest.is_empty() && left.is_empty()
}

fn is_index_head(head: PageHead) -> bool
    ensures { IsTrue result ↔ ((head.kind ≡ 2) × ((1 ≤ head.level) × (head.level ≤ 7))
        × ((1 ≤ head.table) × (head.table ≤ 500)) × (head.next ≡ 0)) }
{
    head.kind == 2
        && head.level >= 1
        && head.level <= 7
        && head.table >= 1
        && head.table <= 500
        && head.next == 0
}

/// Whether the bytes are an index page. It walks once over the children, where they stand.
pub fn check_index_page(bytes: &[u8]) -> bool
    ensures { IsTrue result ↔ ((v : IndexPage) × Spells index_format v bytes.now) }
{
    let Some(page) = sections_of(bytes, 2) else {
        return false;
    };
    if !is_index_head(page.head) {
        return false;
    }
    are_children(page.entries, page.slots, page.head.count as usize)
}

/// The child of an index page with this number, counted from 0; none where there are no more. Its
/// slot tells its place. Of bytes that are no index page it is only known that the separator lies
/// within them.
pub fn index_page_entry(bytes: &[u8], index: usize) -> Option<IndexPageEntry>
    ensures entry { (v : IndexPage) → Spells index_format v bytes.now
        → FindsEntry (IsChildEntry bytes.now) v.children index result }
    ensures within { IfSome result (λ e. e.key.0 + e.key.1 ≤ length bytes.now) }
{
    let Some((place, front)) = entry_front(bytes, index) else {
        return None;
    };
    if front.len() < 6 {
        return None;
    }
    let head = head_at_front(front);
    let key_len = head.key_len as usize;
    if front.len() < 6 + key_len {
        return None;
    }
    Some(IndexPageEntry {
        child: head.child,
        key: (place + 6, key_len),
    })
}
