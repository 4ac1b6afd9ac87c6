//! The locks of one session.
ghost use Rattle.std.specs.Prelude.{◌≡◌, false, [], OnOk, OnErr};
ghost use Rattle.std.specs.Bool.{OnTrue};
ghost use Rattle.std.specs.List.{list_any};
ghost use Rattle.mdb_model.specs.Sessions.{conflict};
ghost use Rattle.mdb_model.specs.Worlds.{ShareKey};
ghost use Rattle.record_locks.specs.Holders.{covers};
ghost use Rattle.record_locks.specs.Holding.{wanted_lock, HasOneMore};

use crate::place_set::PlaceSet;
use crate::table_set::TableSet;
use mdb_model::bytes::Key;
use mdb_model::fault::Memory;
use mdb_model::name::Table;
use std::alloc::Global;
use std::marker::Model;

/// A lock that is asked for.
#[derive(Clone, Copy)]
pub(crate) enum Wanted<'a> {
    ShareKey(Table, &'a Key),
    ExclusiveKey(Table, &'a Key),
    ShareTable(Table),
}

/// The locks of a session.
#[derive(Drop)]
pub(crate) struct HeldLocks {
    // the keys whose rows it may read; those whose rows it may change are not always among them
    shared: PlaceSet,
    exclusive: PlaceSet,
    tables: TableSet,
}

impl Model for HeldLocks {
    ghost use Rattle.std.specs.Prelude.{List};
    ghost use Rattle.mdb_model.specs.Worlds.{Lock};
    ghost use Rattle.record_locks.specs.LockedPlaces.{all_locks};

    ghost Value = { List Lock };

    ghost view = { λ a. all_locks a.shared a.exclusive a.tables };
}

impl HeldLocks {
    /// No locks.
    pub(crate) fn new(alloc: Global) -> HeldLocks
        ensures { result ≡ [] }
    {
        HeldLocks {
            shared: PlaceSet::new(alloc),
            exclusive: PlaceSet::new(alloc),
            tables: TableSet::new(alloc),
        }
    }

    /// Whether one of the locks conflicts with this one, of another session.
    pub(crate) fn bars(&self, wanted: Wanted) -> bool
        ensures { result ≡ list_any (conflict (wanted_lock wanted.entry)) self.now }
    {
        match wanted {
            Wanted::ShareKey(table, key) => self.exclusive.contains(table, key),
            Wanted::ExclusiveKey(table, key) => {
                self.shared.contains(table, key)
                    || self.exclusive.contains(table, key)
                    || self.tables.contains(table)
            }
            Wanted::ShareTable(table) => self.exclusive.has_table(table),
        }
    }

    /// Takes the lock. Where the session has it already this takes no memory.
    pub(crate) fn take(&mut self, alloc: Global, wanted: Wanted) -> Result<(), Memory>
        ensures ok { OnOk result (HasOneMore self.old self.new (wanted_lock wanted.entry)) }
        ensures err { OnErr result (self.new ≡ self.old) }
        ensures wanting { OnErr result (list_any (covers (wanted_lock wanted.entry)) self.old
            ≡ false) }
    {
        match wanted {
            Wanted::ShareKey(table, key) => self.share_key(alloc, table, key),
            Wanted::ExclusiveKey(table, key) => self.exclusive.insert(alloc, table, key),
            Wanted::ShareTable(table) => self.tables.insert(table),
        }
    }

    // A session that may change a row may read it.
    fn share_key(&mut self, alloc: Global, table: Table, key: &Key) -> Result<(), Memory>
        ensures ok { OnOk result (HasOneMore self.old self.new (ShareKey (table.0, key.now))) }
        ensures err { OnErr result (self.new ≡ self.old) }
        ensures wanting { OnErr result (list_any (covers (ShareKey (table.0, key.now))) self.old
            ≡ false) }
    {
        if self.exclusive.contains(table, key) {
            return Ok(());
        }
        self.shared.insert(alloc, table, key)
    }

    /// Whether there are none.
    pub(crate) fn is_empty(&self) -> bool
        ensures { OnTrue result (self.now ≡ []) }
    {
        self.shared.is_empty() && self.exclusive.is_empty() && self.tables.is_empty()
    }

    /// Lets all locks go.
    pub(crate) fn clear(&mut self)
        ensures { self.new ≡ [] }
    {
        self.shared.clear();
        self.exclusive.clear();
        self.tables.clear();
    }
}
