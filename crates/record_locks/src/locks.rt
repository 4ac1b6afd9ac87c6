//! The locks of all sessions.
ghost use Rattle.std.specs.Prelude.{◌≡◌, ℕ, length, false, option_map, IsTrue};
ghost use Rattle.std.specs.Option.{option_copied};
ghost use Rattle.mdb_model.specs.Script.{is_session};
ghost use Rattle.mdb_model.specs.Worlds.{Lock, ShareKey, ExclusiveKey, ShareTable};
ghost use Rattle.record_locks.specs.Holding.{wanted_lock, lock_on};
ghost use Rattle.record_locks.specs.Holders.{bars, holder_in, Acquires, LetGo, IsBound};

use crate::fault::LockFault;
use crate::held::{HeldLocks, Wanted};
use mdb_model::bytes::Key;
use mdb_model::fault::Memory;
use mdb_model::name::{Session, Table};
use std::alloc::Global;
use std::array;
use std::marker::Model;

/// The locks of the sessions 1 to 64.
#[derive(Drop)]
pub struct Locks {
    alloc: Global,
    // at the index of a session's number are its locks, and no session has the number 0
    sessions: [HeldLocks; 65],
    // no session with a greater number has a lock, so that those who do not work are not asked
    highest: u8,
}

impl Model for Locks {
    ghost use Rattle.std.specs.Prelude.{List};
    ghost use Rattle.mdb_model.specs.Worlds.{Lock};
    ghost use Rattle.record_locks.specs.Holders.{IsBound};

    ghost Value = { List (List Lock) };

    ghost view = { λ a. a.sessions };

    ghost invariant = { λ a. IsBound a.sessions a.highest };
}

// The lowest session but this one that bars the lock.
fn lowest_holder(
    sessions: &[HeldLocks],
    highest: u8,
    session: Session,
    wanted: Wanted,
) -> Option<Session>
    requires long { length sessions.now ≡ 65 }
    requires bound { IsBound sessions.now highest }
    ensures { option_map (λ holder. holder.0) result
        ≡ holder_in sessions.now session.0 (wanted_lock wanted.entry) }
{
    for number in 1..highest + 1 {
        if number != session.0 && sessions[number as usize].bars(wanted) {
            return Some(Session(number));
        }
    }
    None
}

// The lowest number, from this one down, past which no session has a lock.
fn highest_from(sessions: &[HeldLocks], most: u8) -> u8
    requires long { length sessions.now ≡ 65 }
    requires bound { IsBound sessions.now most }
    ensures { IsBound sessions.now result }
{
    let mut highest = most;
    while highest > 0 && sessions[highest as usize].is_empty() {
        highest -= 1;
    }
    highest
}

impl Locks {
    /// No session has a lock. It takes no memory.
    pub fn new(alloc: Global) -> Locks
        ensures { (session : ℕ) (lock : Lock) → bars result session lock ≡ false }
    {
        Locks {
            alloc,
            sessions: array::from_fn(|_| HeldLocks::new(alloc)),
            highest: 0,
        }
    }

    // Takes the lock, if no other session bars it.
    fn take(&mut self, session: Session, wanted: Wanted) -> Result<(), LockFault>
        requires { IsTrue (is_session session.0) }
        ensures { Acquires self.old self.new session.0 (wanted_lock wanted.entry) result }
    {
        if let Some(holder) = lowest_holder(&self.sessions, self.highest, session, wanted) {
            return Err(LockFault::Held(holder));
        }
        match self.sessions[session.0 as usize].take(self.alloc, wanted) {
            Ok(()) => {
                self.highest = self.highest.max(session.0);
                Ok(())
            }
            Err(Memory) => Err(LockFault::Memory),
        }
    }

    /// Locks a key, to read its row.
    pub fn share_key(&mut self, session: Session, table: Table, key: &Key) -> Result<(), LockFault>
        requires session { IsTrue (is_session session.0) }
        ensures { Acquires self.old self.new session.0 (ShareKey (table.0, key.now)) result }
    {
        self.take(session, Wanted::ShareKey(table, key))
    }

    /// Locks a key, to change its row.
    pub fn exclusive_key(
        &mut self,
        session: Session,
        table: Table,
        key: &Key,
    ) -> Result<(), LockFault>
        requires session { IsTrue (is_session session.0) }
        ensures { Acquires self.old self.new session.0 (ExclusiveKey (table.0, key.now)) result }
    {
        self.take(session, Wanted::ExclusiveKey(table, key))
    }

    /// Locks a table, to read all its rows.
    pub fn share_table(&mut self, session: Session, table: Table) -> Result<(), LockFault>
        requires session { IsTrue (is_session session.0) }
        ensures { Acquires self.old self.new session.0 (ShareTable table.0) result }
    {
        self.take(session, Wanted::ShareTable(table))
    }

    /// Lets all locks of the session go.
    pub fn release(&mut self, session: Session)
        requires session { IsTrue (is_session session.0) }
        ensures { LetGo self.old self.new session.0 }
    {
        self.sessions[session.0 as usize].clear();
        self.highest = highest_from(&self.sessions, self.highest);
    }

    /// The lowest other session with a lock that conflicts with this one: on a key, exclusive or
    /// not, or where no key is named on the table. It takes no lock.
    pub fn holder(
        &self,
        session: Session,
        table: Table,
        key: Option<&Key>,
        exclusive: bool,
    ) -> Option<Session>
        requires session { IsTrue (is_session session.0) }
        ensures { option_map (λ holder. holder.0) result
            ≡ holder_in self.now session.0 (lock_on table.0 (option_copied key.entry) exclusive) }
    {
        let wanted = match key {
            Some(key) if exclusive => Wanted::ExclusiveKey(table, key),
            Some(key) => Wanted::ShareKey(table, key),
            None => Wanted::ShareTable(table),
        };
        lowest_holder(&self.sessions, self.highest, session, wanted)
    }
}
