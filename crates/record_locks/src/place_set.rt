//! The keys that a session has locked.
ghost use Rattle.std.specs.Prelude.{◌≡◌, ◌==◌, ◌||◌, ℕ, Bool, false, List, [], None, OnOk, OnErr};
ghost use Rattle.std.specs.Bool.{OnTrue};
ghost use Rattle.std.specs.List.{list_any};
ghost use Rattle.std.specs.Map.{lookup};
ghost use Rattle.std.specs.BTreeMap.{is_at, IsOrdered};
ghost use Rattle.mdb_model.specs.Tables.{Place};
ghost use Rattle.mdb_model.specs.Sessions.{same_place};
ghost use Rattle.record_locks.specs.LockedPlaces.{all_places};
ghost use Rattle.record_locks.specs.LockedTables.{table_cmp};

use mdb_model::bytes::Key;
use mdb_model::fault::Memory;
use mdb_model::name::Table;
use std::alloc::Global;
use std::collections::{BTreeMap, BTreeSet};
use std::marker::Model;

/// The locked keys of each table.
type KeysByTable = BTreeMap<Table, BTreeSet<Key>>;

/// A set of keys of tables.
#[derive(Drop)]
pub(crate) struct PlaceSet {
    tables: KeysByTable,
}

impl Model for PlaceSet {
    ghost use Rattle.std.specs.Prelude.{List};
    ghost use Rattle.std.specs.BTreeMap.{IsOrdered};
    ghost use Rattle.mdb_model.specs.Tables.{Place};
    ghost use Rattle.record_locks.specs.LockedPlaces.{all_places};
    ghost use Rattle.record_locks.specs.LockedTables.{table_cmp};

    ghost Value = { List Place };

    ghost view = { λ a. all_places a.tables.entries };

    ghost invariant = { λ a. IsOrdered table_cmp a.tables };
}

// Whether the key is there.
fn has_key(tables: &KeysByTable, table: Table, key: &Key) -> bool
    requires { IsOrdered table_cmp tables.now }
    ensures { result ≡ list_any (same_place (table.0, key.now)) (all_places tables.now.entries) }
{
    match tables.get(&table) {
        Some(keys) => keys.contains(key),
        None => false,
    }
}

// Whether a key of the table is there.
fn has_keys(tables: &KeysByTable, table: Table) -> bool
    requires { IsOrdered table_cmp tables.now }
    ensures { result ≡ list_any (λ (place : Place). table.0 == place.0)
        (all_places tables.now.entries) }
{
    match tables.get(&table) {
        Some(keys) => !keys.is_empty(),
        None => false,
    }
}

// Adds the key to those of a table.
fn insert_key(keys: &mut BTreeSet<Key>, key: Key) -> Result<(), Memory>
    ensures ok { OnOk result ((test : List ℕ → Bool) → list_any test keys.new.keys
        ≡ (list_any test keys.old.keys || test key)) }
    ensures err { OnErr result (keys.new.keys ≡ keys.old.keys) }
{
    match keys.insert(key) {
        Ok(_) => Ok(()),
        Err(_) => Err(Memory),
    }
}

// Adds a table with its first key.
fn add_table(tables: &mut KeysByTable, alloc: Global, table: Table, key: Key) -> Result<(), Memory>
    requires order { IsOrdered table_cmp tables.old }
    requires absent { lookup (is_at (table_cmp table)) tables.old.entries ≡ None }
    ensures order { IsOrdered table_cmp tables.new }
    ensures ok { OnOk result ((test : Place → Bool) → list_any test (all_places tables.new.entries)
        ≡ (list_any test (all_places tables.old.entries) || test (table.0, key))) }
    ensures err { OnErr result (all_places tables.new.entries ≡ all_places tables.old.entries) }
{
    let mut keys = BTreeSet::new(alloc);
    insert_key(&mut keys, key)?;
    match tables.insert(table, keys) {
        Ok(_) => Ok(()),
        Err(_) => Err(Memory),
    }
}

// Adds the key.
fn add_key(tables: &mut KeysByTable, alloc: Global, table: Table, key: Key) -> Result<(), Memory>
    ensures order { IsOrdered table_cmp tables.new }
    ensures ok { OnOk result ((test : Place → Bool) → list_any test (all_places tables.new.entries)
        ≡ (list_any test (all_places tables.old.entries) || test (table.0, key))) }
    ensures err { OnErr result (all_places tables.new.entries ≡ all_places tables.old.entries) }
{
    match tables.get_mut(&table) {
        Some(keys) => insert_key(keys, key),
        None => add_table(tables, alloc, table, key),
    }
}

impl PlaceSet {
    /// No keys.
    pub(crate) fn new(alloc: Global) -> PlaceSet
        ensures { result ≡ [] }
    {
        PlaceSet {
            tables: BTreeMap::new(alloc),
        }
    }

    /// Whether the key is there.
    pub(crate) fn contains(&self, table: Table, key: &Key) -> bool
        ensures { result ≡ list_any (same_place (table.0, key.now)) self.now }
    {
        has_key(&self.tables, table, key)
    }

    /// Whether a key of the table is there.
    pub(crate) fn has_table(&self, table: Table) -> bool
        ensures { result ≡ list_any (λ (place : Place). table.0 == place.0) self.now }
    {
        has_keys(&self.tables, table)
    }

    /// Adds the key. Where it is there already this takes no memory.
    pub(crate) fn insert(&mut self, alloc: Global, table: Table, key: &Key) -> Result<(), Memory>
        ensures ok { OnOk result ((test : Place → Bool) → list_any test self.new
            ≡ (list_any test self.old || test (table.0, key.now))) }
        ensures err { OnErr result (self.new ≡ self.old) }
        ensures wanting { OnErr result (list_any (same_place (table.0, key.now)) self.old ≡ false) }
    {
        if self.contains(table, key) {
            return Ok(());
        }
        let key = key.share()?;
        add_key(&mut self.tables, alloc, table, key)
    }

    /// Whether no table has any.
    pub(crate) fn is_empty(&self) -> bool
        ensures { OnTrue result (self.now ≡ []) }
    {
        self.tables.is_empty()
    }

    /// Lets all keys go.
    pub(crate) fn clear(&mut self)
        ensures { self.new ≡ [] }
    {
        self.tables.clear();
    }
}
