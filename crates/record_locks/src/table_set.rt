//! The tables that a session has locked.
ghost use Rattle.std.specs.Prelude.{◌≡◌, ◌==◌, ◌||◌, ℕ, Bool, false, [], OnOk, OnErr};
ghost use Rattle.std.specs.Bool.{OnTrue};
ghost use Rattle.std.specs.List.{list_any};

use mdb_model::fault::Memory;
use mdb_model::name::Table;
use std::alloc::Global;
use std::collections::BTreeSet;
use std::marker::Model;

/// A set of tables.
#[derive(Drop)]
pub(crate) struct TableSet {
    tables: BTreeSet<Table>,
}

impl Model for TableSet {
    ghost use Rattle.std.specs.Prelude.{List, ℕ, map};
    ghost use Rattle.record_locks.specs.LockedTables.{table_number};

    ghost Value = { List ℕ };

    ghost view = { λ a. map table_number a.tables.keys };
}

impl TableSet {
    /// No tables.
    pub(crate) fn new(alloc: Global) -> TableSet
        ensures { result ≡ [] }
    {
        TableSet {
            tables: BTreeSet::new(alloc),
        }
    }

    /// Whether the table is there.
    pub(crate) fn contains(&self, table: Table) -> bool
        ensures { result ≡ list_any (λ other. table.0 == other) self.now }
    {
        self.tables.contains(&table)
    }

    /// Adds the table. Where it is there already this takes no memory.
    pub(crate) fn insert(&mut self, table: Table) -> Result<(), Memory>
        ensures ok { OnOk result ((test : ℕ → Bool) → list_any test self.new
            ≡ (list_any test self.old || test table.0)) }
        ensures err { OnErr result (self.new ≡ self.old) }
        ensures wanting { OnErr result (list_any (λ other. table.0 == other) self.old ≡ false) }
    {
        match self.tables.insert(table) {
            Ok(_) => Ok(()),
            Err(_) => Err(Memory),
        }
    }

    /// Whether there are none.
    pub(crate) fn is_empty(&self) -> bool
        ensures { OnTrue result (self.now ≡ []) }
    {
        self.tables.is_empty()
    }

    /// Lets all tables go.
    pub(crate) fn clear(&mut self)
        ensures { self.new ≡ [] }
    {
        self.tables.clear();
    }
}
