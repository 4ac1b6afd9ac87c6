//! The group of a commit.
ghost use Rattle.std.specs.Prelude.{◌≡◌, ◌<◌, ◌≤◌, ◌↔◌, length, IsTrue, Some};
ghost use Rattle.mdb_bytes.specs.Fields.{Spells, number_at, number_limit};
ghost use Rattle.mdb_bytes.specs.Groups.{Group, group_format};
ghost use Rattle.mdb_bytes.specs.GroupHeads.{group_head_of, head_read, FindsHead, IsHeadFor, IsGroup};

use crate::numbers::{byte_at, u32_at, u64_at};
use crate::order::are_changes;
use mdb_model::limits::{LAYOUT_NUMBER_END, LONGEST_GROUP, OPEN_GATE};
use mdb_model::name::Name;
/// What the first 33 bytes of a group say: how many bytes it has, the database, its number, and
/// how many changes it has.
#[derive(Clone, Copy, Debug, PartialEq, Eq)]
pub struct GroupHead {
    pub length: u32,
    pub name: Name,
    pub number: u64,
    pub changes: u32,
}

/// How long a group is, by its first five bytes.
pub fn group_len(front: &[u8]) -> u32
    requires { 5 ≤ length front.now }
    ensures { result ≡ number_at 4 1 front.now }
{
    u32_at(front, 1)
}

fn numbers_fit(head: GroupHead) -> bool
    ensures { IsTrue result ↔ ((head.name.birth < number_limit)
        × (head.name.generation < number_limit)
        × (head.number < number_limit)) }
{
    head.name.birth < LAYOUT_NUMBER_END
        && head.name.generation < LAYOUT_NUMBER_END
        && head.number < LAYOUT_NUMBER_END
}

fn read_head(bytes: &[u8]) -> GroupHead
    requires { 33 ≤ length bytes.now }
    ensures { result ≡ head_read bytes.now }
{
    GroupHead {
        length: u32_at(bytes, 1),
        name: Name {
            birth: u64_at(bytes, 5),
            generation: u64_at(bytes, 13),
        },
        number: u64_at(bytes, 21),
        changes: u32_at(bytes, 29),
    }
}

fn first_head(bytes: &[u8]) -> Option<GroupHead>
    ensures { FindsHead bytes.now result }
{
    if bytes.len() < 33 {
        return None;
    }
    if byte_at(bytes, 0) != OPEN_GATE {
        return None;
    }
    let head = read_head(bytes);
    if !numbers_fit(head) {
        return None;
    }
    Some(head)
}

/// The head of a group; none where the bytes begin with no head.
pub fn group_head(bytes: &[u8]) -> Option<GroupHead>
    ensures head { FindsHead bytes.now result }
    ensures group { (v : Group) → Spells group_format v bytes.now
        → result ≡ Some (group_head_of v) }
{
    first_head(bytes)
}

fn is_head_for(head: GroupHead, name: Name, number: u64, len: usize) -> bool
    ensures { IsTrue result ↔ IsHeadFor head name number len }
{
    head.name == name
        && head.number == number
        && head.length as usize == len
        && len <= LONGEST_GROUP
}

/// Whether the bytes are the group of this number in this database.
pub fn is_due(bytes: &[u8], name: Name, number: u64) -> bool
    ensures { IsTrue result ↔ IsGroup name number bytes.now }
{
    let Some(head) = group_head(bytes) else {
        return false;
    };
    if !is_head_for(head, name, number, bytes.len()) {
        return false;
    }
    are_changes(bytes.split_at(33).1, head.changes as usize)
}

/// Whether the bytes are a group.
pub fn check_group(bytes: &[u8]) -> bool
    ensures { IsTrue result ↔ ((v : Group) × Spells group_format v bytes.now) }
{
    let Some(head) = group_head(bytes) else {
        return false;
    };
    is_due(bytes, head.name, head.number)
}
