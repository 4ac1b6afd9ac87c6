//! The changes of an open transaction.
ghost use Rattle.std.specs.Prelude.{◌≡◌, ℕ, ◌+◌, ◌<◌, ◌≤◌, [], map, drop, length, vec_len, vec_capacity, None, IfOk, IfErr, IfSome, OnOk, OnErr, IsTrue};
ghost use Rattle.std.specs.BTreeMap.{insert_entry};
ghost use Rattle.std.specs.List.{list_all};
ghost use Rattle.std.specs.Map.{values_of};
ghost use Rattle.std.specs.Option.{option_copied};
ghost use Rattle.std.specs.FinMap.{empty, get, insert, len, values, find, put};
ghost use Rattle.mdb_model.specs.declared.change.Change.{Change};
ghost use Rattle.mdb_model.specs.declared.change.Change.TheVariants.{Put, Del};
ghost use Rattle.mdb_model.specs.Script.{is_session};
ghost use Rattle.mdb_model.specs.Tables.{place_cmp, place_of};
ghost use Rattle.mdb_model.specs.Worlds.{ExclusiveKey};
ghost use Rattle.mdb_model.specs.Sessions.{change_bytes, group_bytes};
ghost use Rattle.mdb_bytes.specs.Fields.{rises, number_limit, Spells};
ghost use Rattle.mdb_bytes.specs.Groups.{change_fits, group_format, longest_group};
ghost use Rattle.sorted_places.specs.Search.{IsPast};
ghost use Rattle.record_locks.specs.Holders.{holder_in, HasLock};
ghost use Rattle.transactions.specs.Net.{keyed_change, AreNetByPlace};

use crate::place::{ChangePlace, copied_key};
use mdb_bytes::{GroupBuf, begin_group, put_change};
use mdb_model::bytes::{Key, KeyBuf, Value};
use mdb_model::change::Change;
use mdb_model::fault::Memory;
use mdb_model::name::{Name, Session, Table};
use record_locks::Locks;
use std::alloc::Global;
use std::collections::BTreeMap;
use std::collections::btree_map::{Entry, Range};
use std::marker::Model;
use std::mem;
use std::ops::Bound;

/// The bytes of a commit group without changes.
const EMPTY_GROUP: u64 = 33;

/// The bytes of a change beside its key and its value.
const CHANGE_HEAD: u64 = 7;

/// The last change of each place.
type ChangesByPlace = BTreeMap<ChangePlace, Change>;

/// The changes of an open transaction: the last one of each key, by table and key.
#[derive(Drop)]
pub(crate) struct OpenTransaction {
    changes: ChangesByPlace,
    bytes: u64,
    // room for as many changes as there are, in which they are listed for a commit
    room: Vec<Change>,
}

impl Model for OpenTransaction {
    ghost use Rattle.std.specs.Prelude.{◌≡◌, map};
    ghost use Rattle.std.specs.FinMap.{FinMap, from_sorted};
    ghost use Rattle.std.specs.Map.{values_of};
    ghost use Rattle.mdb_model.specs.declared.change.Change.{Change};
    ghost use Rattle.mdb_model.specs.Tables.{place_cmp};
    ghost use Rattle.mdb_model.specs.Sessions.{group_bytes};
    ghost use Rattle.transactions.specs.Net.{keyed_change, AreNetByPlace, net_code};

    ghost Value = { FinMap place_cmp Change };

    ghost coded = { net_code };

    ghost view = { λ a. from_sorted (map keyed_change (values_of a.changes.entries)) };

    ghost invariant = { λ a. record {
      kept : AreNetByPlace a.changes.entries;
      counted : a.bytes ≡ group_bytes (values_of a.changes.entries);
    } };
}

// The change of a key.
fn find_change<'a>(changes: &'a ChangesByPlace, table: Table, key: &Key) -> Option<&'a Change>
    ensures { option_copied result ≡ find place_cmp (table.0, key.now) changes.now.entries }
{
    changes.get(&ChangePlace::new(table, key.to_buf()))
}

// The bytes of a change in a commit group.
fn change_len(change: &Change) -> u64
    requires { IsTrue (change_fits change.now) }
    ensures { result ≡ change_bytes change.now }
{
    match change {
        Change::Put(_, key, value) => entry_len(key.bytes(), value.bytes()),
        Change::Del(_, key) => entry_len(key.bytes(), &[]),
    }
}

// The bytes of an entry of a commit group, with the value of a put or without one.
fn entry_len(key: &[u8], value: &[u8]) -> u64
    requires key { length key.now ≤ 256 }
    requires value { length value.now ≤ 1500 }
    ensures { result ≡ 7 + length key.now + length value.now }
{
    CHANGE_HEAD + key.len() as u64 + value.len() as u64
}

// The bytes of the group with one more change of so many bytes: it takes the place of an earlier
// one of its key.
fn group_len_with(changes: &ChangesByPlace, bytes: u64, table: Table, key: &Key, added: u64) -> u64
    requires kept { AreNetByPlace changes.now.entries }
    requires counted { bytes ≡ group_bytes (values_of changes.now.entries) }
    requires small { added ≤ 2000 }
    ensures { (change : Change) → place_of change ≡ (table.0, key.now)
        → change_bytes change ≡ added → result
        ≡ group_bytes (values_of (put place_cmp (table.0, key.now) change changes.now.entries)) }
{
    match find_change(changes, table, key) {
        Some(change) => bytes - change_len(change) + added,
        None => bytes + added,
    }
}

// Sets the change of a place, or adds it, and takes the lock for it. Memory is taken first, so that
// it is done whole or not at all.
fn set_change(
    changes: &mut ChangesByPlace,
    change: Change,
    locks: &mut Locks,
    session: Session,
    table: Table,
    key: &Key,
) -> Result<(), Memory>
    requires session { IsTrue (is_session session.0) }
    requires free { holder_in locks.old session.0 (ExclusiveKey (table.0, key.now)) ≡ None }
    ensures locked { OnOk result
        (HasLock locks.old locks.new session.0 (ExclusiveKey (table.0, key.now))) }
    ensures unlocked { OnErr result (locks.new ≡ locks.old) }
    ensures ok { OnOk result (changes.new.entries
        ≡ insert_entry place_cmp changes.old.entries (table.0, key.now) change) }
    ensures err { OnErr result (changes.new.entries ≡ changes.old.entries) }
{
    let Ok(entry) = changes.entry(ChangePlace::new(table, key.to_buf())) else {
        return Err(Memory);
    };
    match entry {
        Entry::Occupied(mut last) => {
            if locks.exclusive_key(session, table, key).is_err() {
                return Err(Memory);
            }
            drop(last.insert(change));
            Ok(())
        }
        Entry::Vacant(place) => {
            let added = place.insert_entry(change);
            if locks.exclusive_key(session, table, key).is_err() {
                drop(added.remove());
                return Err(Memory);
            }
            Ok(())
        }
    }
}

// The same change, in the same memory.
fn share_change(change: &Change) -> Result<Change, Memory>
    ensures { IfOk result (λ same. same ≡ change.now) }
{
    match change {
        Change::Put(table, key, value) => Ok(Change::Put(*table, key.share()?, value.share()?)),
        Change::Del(table, key) => Ok(Change::Del(*table, key.share()?)),
    }
}

// Lists the changes in order. It takes no memory where there is room for them.
fn list_changes(changes: &ChangesByPlace, into: &mut Vec<Change>) -> Result<(), Memory>
    requires { into.old.items ≡ [] }
    ensures { OnOk result (into.new.items ≡ values_of changes.now.entries) }
{
    for change in changes.values() {
        let shared = share_change(change)?;
        let Ok(()) = into.push(shared) else {
            return Err(Memory);
        };
    }
    Ok(())
}

// The group of the changes, which has so many bytes.
fn encode_changes(
    changes: &ChangesByPlace,
    bytes: u64,
    name: Name,
    number: u64,
    into: &mut GroupBuf,
)
    requires kept { AreNetByPlace changes.now.entries }
    requires counted { bytes ≡ group_bytes (values_of changes.now.entries) }
    requires numbers { (name.birth < number_limit) × (name.generation < number_limit)
        × (number < number_limit) }
    ensures group { Spells group_format (record {
      name = name;
      number = number;
      changes = values_of changes.now.entries;
    }) into.new }
    ensures len { length into.new ≡ bytes }
{
    begin_group(into, bytes as u32, name, number, changes.len() as u32);
    for change in changes.values() {
        put_change(into, change);
    }
}

impl OpenTransaction {
    /// No changes.
    pub(crate) fn new(alloc: Global) -> OpenTransaction
        ensures { result ≡ empty }
    {
        OpenTransaction {
            changes: BTreeMap::new(alloc),
            bytes: EMPTY_GROUP,
            room: Vec::new(alloc),
        }
    }

    /// How many keys are changed.
    pub(crate) fn len(&self) -> u32
        ensures count { result ≡ len self.now }
        ensures each_fits { IsTrue (list_all change_fits (values self.now)) }
    {
        self.changes.len() as u32
    }

    /// The last change of a key.
    pub(crate) fn get(&self, table: Table, key: &Key) -> Option<&Change>
        ensures change { option_copied result ≡ get self.now (table.0, key.now) }
        ensures fits { IfSome (option_copied result) (λ change. IsTrue (change_fits change)) }
    {
        find_change(&self.changes, table, key)
    }

    /// The changes after a place, by table and key.
    pub(crate) fn behind(&self, table: Table, after: &KeyBuf) -> Range<'_, ChangePlace, Change>
        ensures behind { (at : ℕ) × IsPast place_of (values self.now) table.0 after.now.items at
            × (result ≡ drop at (map keyed_change (values self.now))) }
        ensures ascend { IsTrue (rises place_cmp (map place_of (values self.now))) }
    {
        let place = ChangePlace::new(table, copied_key(after));
        self.changes
            .range((Bound::Excluded(place), Bound::Unbounded))
    }

    /// The bytes of the commit group with one more put.
    pub(crate) fn bytes_with_put(&self, table: Table, key: &Key, value: &Value) -> u64
        requires { IsTrue (change_fits (Put table key.now value.now)) }
        ensures { result ≡ group_bytes (values
            (insert self.now (table.0, key.now) (Put table key.now value.now))) }
    {
        let added = entry_len(key.bytes(), value.bytes());
        group_len_with(&self.changes, self.bytes, table, key, added)
    }

    /// The bytes of the commit group with one more deletion.
    pub(crate) fn bytes_with_del(&self, table: Table, key: &Key) -> u64
        requires { IsTrue (change_fits (Del table key.now)) }
        ensures { result ≡ group_bytes (values
            (insert self.now (table.0, key.now) (Del table key.now))) }
    {
        let added = entry_len(key.bytes(), &[]);
        group_len_with(&self.changes, self.bytes, table, key, added)
    }

    /// Makes a change, after which the commit group has so many bytes, and takes the lock for it.
    /// All memory is taken first, so that it is done whole or not at all, and a commit needs no
    /// more.
    pub(crate) fn change(
        &mut self,
        change: Change,
        bytes: u64,
        locks: &mut Locks,
        session: Session,
        table: Table,
        key: &Key,
    ) -> Result<(), Memory>
        requires place { place_of change ≡ (table.0, key.now) }
        requires limits { IsTrue (change_fits change) }
        requires bytes { bytes ≡ group_bytes (values (insert self.old (place_of change) change)) }
        requires room { bytes ≤ longest_group }
        requires session { IsTrue (is_session session.0) }
        requires free { holder_in locks.old session.0 (ExclusiveKey (table.0, key.now)) ≡ None }
        ensures locked { OnOk result (HasLock locks.old locks.new session.0
            (ExclusiveKey (table.0, key.now))) }
        ensures unlocked { OnErr result (locks.new ≡ locks.old) }
        ensures ok { OnOk result (self.new ≡ insert self.old (place_of change) change) }
        ensures err { OnErr result (self.new ≡ self.old) }
    {
        let Ok(()) = self.room.reserve(self.changes.len() + 1) else {
            return Err(Memory);
        };
        set_change(&mut self.changes, change, locks, session, table, key)?;
        self.bytes = bytes;
        Ok(())
    }

    /// Hands out the changes as they stand, by table and key, as a commit group has them. They
    /// share the memory of the keys and values, and stand in the room that each change reserved,
    /// which `give_back` returns. It fails only where no more can be counted that share a key or a
    /// value.
    pub(crate) fn listed(&mut self, alloc: Global) -> Result<Vec<Change>, Memory>
        ensures same { self.new ≡ self.old }
        ensures value { IfOk result (λ changes. changes.items ≡ values self.old) }
        ensures ascend { IfOk result (λ changes.
            IsTrue (rises place_cmp (map place_of changes.items))) }
        ensures each_fits { IfOk result (λ changes.
            IsTrue (list_all change_fits changes.items)) }
        ensures fit { IfOk result (λ changes. group_bytes changes.items ≤ longest_group) }
    {
        let mut listed = mem::replace(&mut self.room, Vec::new(alloc));
        listed.clear();
        match list_changes(&self.changes, &mut listed) {
            Ok(()) => Ok(listed),
            Err(Memory) => {
                self.room = listed;
                Err(Memory)
            }
        }
    }

    /// The commit group of the changes in place of what stood in `into`.
    pub(crate) fn encode(&self, name: Name, number: u64, into: &mut GroupBuf)
        requires numbers { (name.birth < number_limit) × (name.generation < number_limit)
            × (number < number_limit) }
        ensures group { Spells group_format (record {
          name = name;
          number = number;
          changes = values self.now;
        }) into.new }
        ensures len { length into.new ≡ group_bytes (values self.now) }
        ensures fit { length into.new ≤ longest_group }
    {
        encode_changes(&self.changes, self.bytes, name, number, into);
    }

    /// Takes back the room that was handed out.
    pub(crate) fn give_back(&mut self, room: Vec<Change>)
        ensures { self.new ≡ self.old }
    {
        self.room = room;
        self.room.clear();
    }

    /// Lets all changes go, and keeps the room to list as many.
    pub(crate) fn clear(&mut self)
        ensures { self.new ≡ empty }
    {
        self.changes.clear();
        self.bytes = EMPTY_GROUP;
    }
}
