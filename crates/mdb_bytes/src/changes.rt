//! The changes of a group, read in order.
ghost use Rattle.std.specs.Prelude.{◌≡◌, ◌+◌, ◌<◌, ◌≤◌, ℕ, List, ◌↔◌, length, IsTrue, MatchOption, IfSome};
ghost use Rattle.mdb_model.specs.declared.change.Change.{Change};
ghost use Rattle.mdb_model.specs.Tables.{place_of};
ghost use Rattle.mdb_bytes.specs.Fields.{Spells};
ghost use Rattle.mdb_bytes.specs.Groups.{Group, group_format};
ghost use Rattle.mdb_bytes.specs.LoggedChanges.{change_of, IsWithinLimits, BeginsWithChange, HasChanges, GivesChange};
ghost use Rattle.mdb_bytes.specs.ChangeHeads.{head_in, KeepsHead};
ghost use Rattle.mdb_bytes.specs.ChangeOrder.{place_at};

use crate::numbers::{byte_at, u16_at};
use mdb_model::name::Table;
use std::marker::Model;

/// A change as it stands in a group: a row that is set, or a key whose row goes.
#[derive(Clone, Copy)]
pub enum LoggedChange<'a> {
    Put(Table, &'a [u8], &'a [u8]),
    Del(Table, &'a [u8]),
}

/// The row that a change is about.
#[derive(Clone, Copy)]
pub struct LoggedPlace<'a> {
    pub table: Table,
    pub key: &'a [u8],
}

impl<'a> LoggedChange<'a> {
    /// The row that it is about.
    pub fn place(&self) -> LoggedPlace<'a>
        ensures { place_at result ≡ place_of (change_of self.now) }
    {
        match *self {
            LoggedChange::Put(table, key, _) => LoggedPlace { table, key },
            LoggedChange::Del(table, key) => LoggedPlace { table, key },
        }
    }
}

// The fixed front of a change, which says how many bytes follow.
#[derive(Clone, Copy)]
pub struct ChangeHead {
    pub table: u16,
    pub kind: u8,
    pub key_len: u16,
    pub value_len: u16,
}

fn head_at_front(bytes: &[u8]) -> ChangeHead
    requires { 7 ≤ length bytes.now }
    ensures { result ≡ head_in bytes.now }
{
    ChangeHead {
        table: u16_at(bytes, 0),
        kind: byte_at(bytes, 2),
        key_len: u16_at(bytes, 3),
        value_len: u16_at(bytes, 5),
    }
}

fn is_kept(head: ChangeHead) -> bool
    ensures { IsTrue result ↔ KeepsHead head }
{
    head.table >= 1
        && head.table <= 500
        && head.key_len >= 1
        && head.key_len <= 256
        && head.value_len <= 1500
        && (head.kind == 1 || head.kind == 2 && head.value_len == 0)
}

/// The change at the front, and what stands after it; none where the bytes begin with no change.
pub fn first_change(bytes: &[u8]) -> Option<(LoggedChange<'_>, &[u8])>
    ensures first { MatchOption result
        ((change : Change) → (rest : List ℕ) → BeginsWithChange change bytes.now rest → ⊥)
        (λ r. BeginsWithChange (change_of r.0) bytes.now r.1.now) }
    ensures limits { IfSome result (λ r. IsWithinLimits r.0) }
{
    if bytes.len() < 7 {
        return None;
    }
    let head = head_at_front(bytes);
    if !is_kept(head) {
        return None;
    }
    let body = bytes.split_at(7).1;
    let key_len = head.key_len as usize;
    let value_len = head.value_len as usize;
    if body.len() < key_len + value_len {
        return None;
    }
    let (key, behind) = body.split_at(key_len);
    let (value, rest) = behind.split_at(value_len);
    if head.kind == 1 {
        return Some((LoggedChange::Put(Table(head.table), key, value), rest));
    }
    Some((LoggedChange::Del(Table(head.table), key), rest))
}

/// Reads changes one after the other. Its value is the bytes that it has left.
#[derive(Drop)]
pub struct ChangeReader<'a> {
    left: &'a [u8],
}

impl<'a> Model for ChangeReader<'a> {
    ghost use Rattle.std.specs.Prelude.{List, ℕ};

    ghost Value = { List ℕ };

    ghost view = { λ a. a.left.now };
}

/// The changes of a group.
pub fn changes_of(bytes: &[u8]) -> ChangeReader<'_>
    ensures has { (v : Group) → Spells group_format v bytes.now → HasChanges result v.changes }
    ensures within { length result ≤ length bytes.now }
{
    if bytes.len() < 33 {
        return ChangeReader { left: bytes };
    }
    ChangeReader {
        left: bytes.split_at(33).1,
    }
}

impl<'a> ChangeReader<'a> {
    /// The next change; none at the end, and where what is left begins with no change.
    pub fn next(&mut self) -> Option<LoggedChange<'a>>
        ensures gives { (changes : List Change) → HasChanges self.old changes
            → GivesChange result self.new changes }
        ensures first { MatchOption result
            (((change : Change) → (rest : List ℕ) → BeginsWithChange change self.old rest → ⊥)
            × (self.new ≡ self.old))
            (λ logged. BeginsWithChange (change_of logged) self.old self.new) }
        ensures limits { IfSome result IsWithinLimits }
        ensures shorter { IfSome result (λ _. length self.new < length self.old) }
    {
        let Some((change, rest)) = first_change(self.left) else {
            return None;
        };
        self.left = rest;
        Some(change)
    }
}
