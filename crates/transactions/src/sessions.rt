//! The transactions of all sessions.
ghost use Rattle.std.specs.Prelude.{◌≡◌, ℕ, ◌<◌, ◌≤◌, Bool, true, false, None, Some, length, IfOk, IfErr, IfSome, OnOk, IsTrue, is_some, option_map, map, drop, Err};
ghost use Rattle.std.specs.List.{list_all};
ghost use Rattle.std.specs.FinMap.{empty, get, insert, len, values};
ghost use Rattle.mdb_model.specs.declared.change.Change.TheVariants.{Put, Del};
ghost use Rattle.mdb_model.specs.Script.{is_session, is_table, is_key};
ghost use Rattle.mdb_model.specs.Tables.{place_cmp, place_of};
ghost use Rattle.mdb_model.specs.Worlds.{Lock, ShareKey, ExclusiveKey, ShareTable};
ghost use Rattle.mdb_model.specs.Sessions.{group_bytes};
ghost use Rattle.mdb_bytes.specs.Fields.{rises, number_limit, Spells};
ghost use Rattle.mdb_bytes.specs.Groups.{change_fits, group_format, longest_group};
ghost use Rattle.mdb_bytes.specs.Held.{IsFoundRow, HasPageCause};
ghost use Rattle.sorted_places.specs.Search.{IsPast};
ghost use Rattle.record_locks.specs.Holders.{bars, holder_in};
ghost use Rattle.transactions.specs.Locked.{AreLocked};
ghost use Rattle.transactions.specs.Net.{keyed_change, seen_row, seen_length};
ghost use Rattle.transactions.specs.Ongoing.{changes_of, EndsTransaction};
ghost use Rattle.transactions.specs.Calls.{TakesLock, PutDoes, DelDoes, UnlessPage, HasTxCause, bytes_with};

use crate::fault::TxFault;
use crate::place::ChangePlace;
use crate::transaction::OpenTransaction;
use mdb_bytes::{GroupBuf, Rows};
use mdb_model::bytes::{Key, KeyBuf, Value, ValueBuf};
use mdb_model::change::Change;
use mdb_model::fault::{Memory, PageFault};
use mdb_model::name::{Name, Session, Table};
use record_locks::Locks;
use std::alloc::Global;
use std::array;
use std::collections::btree_map::Range;
use std::marker::Model;

/// What the sessions 1 to 64 have locked and changed.
#[derive(Drop)]
pub struct Transactions {
    alloc: Global,
    locks: Locks,
    // at the index of a session's number are its changes, and no session has the number 0
    sessions: [OpenTransaction; 65],
    most: u64,
}

impl Model for Transactions {
    ghost use Rattle.std.specs.Prelude.{◌≤◌};
    ghost use Rattle.mdb_bytes.specs.Groups.{longest_group};
    ghost use Rattle.transactions.specs.Locked.{AreLocked};
    ghost use Rattle.transactions.specs.Ongoing.{Ongoing, ongoing_code};

    ghost Value = { Ongoing };

    ghost coded = { ongoing_code };

    ghost view = { λ a. record { locks = a.locks; changes = a.sessions; most = a.most } };

    ghost invariant = { λ a. record {
      small : a.most
          ≤ longest_group;
      locked : AreLocked a.locks a.sessions;
    } };
}

// The value of a row, as the session with these changes sees it.
fn read_row<R: Rows>(
    own: &OpenTransaction,
    rows: &mut R,
    table: Table,
    key: &Key,
    into: &mut ValueBuf,
) -> Result<bool, PageFault>
    requires table { IsTrue (is_table table.0) }
    requires key { IsTrue (is_key key.now) }
    ensures found { R.is_known rows.old → IfOk result
        (λ found. IsFoundRow found (seen_row (get own.now (table.0, key.now))
        (get (R.held rows.old).rows (table.0, key.now))) into.new.items) }
    ensures same { R.is_known rows.old → OnOk result (R.is_known rows.new
        × (R.held rows.new ≡ R.held rows.old)) }
    ensures spare { R.spare rows.old ≤ R.spare rows.new }
    ensures cause { HasPageCause (R.is_known rows.old) (R.faults rows.old) (R.faults rows.new)
        result }
    ensures quiet { IfErr result (λ fault. fault ≡ PageFault.Failed → R.reads_devices rows.old) }
    ensures follows { R.follows rows.old rows.new }
{
    match own.get(table, key) {
        Some(Change::Put(_, _, value)) => {
            *into = value.to_buf();
            Ok(true)
        }
        Some(Change::Del(_, _)) => Ok(false),
        None => rows.get(table, key.bytes(), into),
    }
}

// The length of the value of a row, as the session with these changes sees it.
fn row_len<R: Rows>(
    own: &OpenTransaction,
    rows: &mut R,
    table: Table,
    key: &Key,
) -> Result<Option<usize>, PageFault>
    requires table { IsTrue (is_table table.0) }
    requires key { IsTrue (is_key key.now) }
    ensures seen { R.is_known rows.old → IfOk result (λ len. len
        ≡ seen_length (get own.now (table.0, key.now))
        (get (R.held rows.old).rows (table.0, key.now))) }
    ensures small { IfOk result (λ len. IfSome len (λ n. n ≤ 1500)) }
    ensures same { R.is_known rows.old → OnOk result (R.is_known rows.new
        × (R.held rows.new ≡ R.held rows.old)) }
    ensures spare { R.spare rows.old ≤ R.spare rows.new }
    ensures cause { HasPageCause (R.is_known rows.old) (R.faults rows.old) (R.faults rows.new)
        result }
    ensures quiet { IfErr result (λ fault. fault ≡ PageFault.Failed → R.reads_devices rows.old) }
    ensures follows { R.follows rows.old rows.new }
{
    match own.get(table, key) {
        Some(Change::Put(_, _, value)) => Ok(Some(value.bytes().len())),
        Some(Change::Del(_, _)) => Ok(None),
        None => committed_len(rows, table, key),
    }
}

// The length of the value of a committed row.
fn committed_len<R: Rows>(rows: &mut R, table: Table, key: &Key) -> Result<Option<usize>, PageFault>
    requires table { IsTrue (is_table table.0) }
    requires key { IsTrue (is_key key.now) }
    ensures seen { R.is_known rows.old → IfOk result (λ len. len
        ≡ option_map (λ value. length value) (get (R.held rows.old).rows (table.0, key.now))) }
    ensures small { IfOk result (λ len. IfSome len (λ n. n ≤ 1500)) }
    ensures same { R.is_known rows.old → OnOk result (R.is_known rows.new
        × (R.held rows.new ≡ R.held rows.old)) }
    ensures spare { R.spare rows.old ≤ R.spare rows.new }
    ensures cause { HasPageCause (R.is_known rows.old) (R.faults rows.old) (R.faults rows.new)
        result }
    ensures quiet { IfErr result (λ fault. fault ≡ PageFault.Failed → R.reads_devices rows.old) }
    ensures follows { R.follows rows.old rows.new }
{
    let mut value = ValueBuf::new();
    if rows.get(table, key.bytes(), &mut value)? {
        Ok(Some(value.len()))
    } else {
        Ok(None)
    }
}

// A put that shares the memory of its key and its value.
fn put_of(table: Table, key: &Key, value: &Value) -> Result<Change, Memory>
    ensures { IfOk result (λ change. change ≡ Put table key.now value.now) }
{
    let key = key.share()?;
    let value = value.share()?;
    Ok(Change::Put(table, key, value))
}

// A deletion that shares the memory of its key.
fn del_of(table: Table, key: &Key) -> Result<Change, Memory>
    ensures { IfOk result (λ change. change ≡ Del table key.now) }
{
    let key = key.share()?;
    Ok(Change::Del(table, key))
}

impl Transactions {
    /// No session has a transaction, and a commit may have so many bytes. It takes no memory.
    pub fn new(alloc: Global, most: u64) -> Transactions
        requires { most ≤ longest_group }
        ensures locks { (session : ℕ) (lock : Lock) → bars result.locks session lock ≡ false }
        ensures changes { (session : ℕ) → changes_of result session ≡ empty }
        ensures most { result.most ≡ most }
    {
        Transactions {
            alloc,
            locks: Locks::new(alloc),
            sessions: array::from_fn(|_| OpenTransaction::new(alloc)),
            most,
        }
    }

    /// Where its memory comes from, which a caller's may come from too.
    pub fn alloc(&self) -> Global {
        self.alloc
    }

    /// The value of a row, as the session sees it: its own last change of the key, and else the
    /// committed row; false where it sees none.
    pub fn get<R: Rows>(
        &mut self,
        rows: &mut R,
        session: Session,
        table: Table,
        key: &Key,
        into: &mut ValueBuf,
    ) -> Result<bool, TxFault>
        requires session { IsTrue (is_session session.0) }
        requires table { IsTrue (is_table table.0) }
        requires key { IsTrue (is_key key.now) }
        ensures locks { TakesLock self.old self.new session.0 (ShareKey (table.0, key.now)) result }
        ensures found { R.is_known rows.old → IfOk result (λ found.
            IsFoundRow found (seen_row (get (changes_of self.old session.0) (table.0, key.now))
            (get (R.held rows.old).rows (table.0, key.now))) into.new.items) }
        ensures same { R.is_known rows.old
            → UnlessPage result (R.is_known rows.new × (R.held rows.new ≡ R.held rows.old)) }
        ensures spare { R.spare rows.old ≤ R.spare rows.new }
        ensures cause { HasTxCause (R.is_known rows.old) (R.faults rows.old) (R.faults rows.new)
            result }
        ensures quiet { IfErr result (λ fault. fault ≡ TxFault.Page PageFault.Failed
            → R.reads_devices rows.old) }
        ensures follows { R.follows rows.old rows.new }
    {
        self.locks.share_key(session, table, key)?;
        let found = read_row(&self.sessions[session.0 as usize], rows, table, key, into)?;
        Ok(found)
    }

    /// The length in bytes of the value that the session sees at the key, none where it sees no
    /// row. It takes no lock and no memory, and reads the rows only where the session has not
    /// changed the key.
    pub fn seen_len<R: Rows>(
        &self,
        rows: &mut R,
        session: Session,
        table: Table,
        key: &Key,
    ) -> Result<Option<usize>, PageFault>
        requires session { IsTrue (is_session session.0) }
        requires table { IsTrue (is_table table.0) }
        requires key { IsTrue (is_key key.now) }
        ensures seen { R.is_known rows.old → IfOk result (λ len. len
            ≡ seen_length (get (changes_of self.now session.0) (table.0, key.now))
            (get (R.held rows.old).rows (table.0, key.now))) }
        ensures small { IfOk result (λ len. IfSome len (λ n. n ≤ 1500)) }
        ensures same { R.is_known rows.old → OnOk result (R.is_known rows.new
            × (R.held rows.new ≡ R.held rows.old)) }
        ensures locked { AreLocked self.now.locks self.now.changes }
        ensures spare { R.spare rows.old ≤ R.spare rows.new }
        ensures cause { HasPageCause (R.is_known rows.old) (R.faults rows.old) (R.faults rows.new)
            result }
        ensures quiet { IfErr result (λ fault. fault ≡ PageFault.Failed
            → R.reads_devices rows.old) }
        ensures follows { R.follows rows.old rows.new }
    {
        row_len(&self.sessions[session.0 as usize], rows, table, key)
    }

    /// Locks a table for a scan.
    pub fn scan(&mut self, session: Session, table: Table) -> Result<(), TxFault>
        requires session { IsTrue (is_session session.0) }
        ensures locks { TakesLock self.old self.new session.0 (ShareTable table.0) result }
        ensures no_page { (fault : PageFault) → result ≡ Err (TxFault.Page fault) → ⊥ }
    {
        self.locks.share_table(session, table)?;
        Ok(())
    }

    /// Puts a value; `fits` says whether the blocks of the data area suffice for it. The rows are
    /// left as they are until the commit.
    pub fn put<R: Rows>(
        &mut self,
        rows: &mut R,
        fits: bool,
        session: Session,
        table: Table,
        key: &Key,
        value: &Value,
    ) -> Result<(), TxFault>
        requires session { IsTrue (is_session session.0) }
        requires limits { IsTrue (change_fits (Put table key.now value.now)) }
        ensures does { PutDoes self.old self.new session.0 (Put table key.now value.now) fits result }
        ensures rows { rows.new ≡ rows.old }
    {
        let _ = rows;
        if let Some(holder) = self.locks.holder(session, table, Some(key), true) {
            return Err(TxFault::Locked(holder));
        }
        let bytes = self.sessions[session.0 as usize].bytes_with_put(table, key, value);
        if self.most < bytes {
            return Err(TxFault::TooLarge(bytes));
        }
        let Ok(change) = put_of(table, key, value) else {
            return Err(TxFault::Memory);
        };
        if !fits {
            return Err(TxFault::Full);
        }
        self.change(session, table, key, change, bytes)
    }

    /// Deletes the row that the session sees. Where it sees none it answers false, and has the key
    /// locked all the same. The rows are left as they are until the commit.
    pub fn del<R: Rows>(
        &mut self,
        rows: &mut R,
        fits: bool,
        session: Session,
        table: Table,
        key: &Key,
    ) -> Result<bool, TxFault>
        requires session { IsTrue (is_session session.0) }
        requires limits { IsTrue (change_fits (Del table key.now)) }
        ensures does { (visible : Bool) × DelDoes self.old self.new session.0 (Del table key.now) fits visible
            result
            × (R.is_known rows.old → visible
            ≡ is_some (seen_row (get (changes_of self.old session.0) (table.0, key.now))
            (get (R.held rows.old).rows (table.0, key.now)))) }
        ensures same { R.is_known rows.old
            → UnlessPage result (R.is_known rows.new × (R.held rows.new ≡ R.held rows.old)) }
        ensures spare { R.spare rows.old ≤ R.spare rows.new }
        ensures cause { HasTxCause (R.is_known rows.old) (R.faults rows.old) (R.faults rows.new)
            result }
        ensures quiet { IfErr result (λ fault. fault ≡ TxFault.Page PageFault.Failed
            → R.reads_devices rows.old) }
        ensures follows { R.follows rows.old rows.new }
    {
        if let Some(holder) = self.locks.holder(session, table, Some(key), true) {
            return Err(TxFault::Locked(holder));
        }
        let mut seen = ValueBuf::new();
        let visible = read_row(
            &self.sessions[session.0 as usize],
            rows,
            table,
            key,
            &mut seen,
        )?;
        self.del_where(visible, fits, session, table, key)
    }

    /// Deletes a row of which the caller knows whether the session sees it, as `del` does.
    pub fn del_known(
        &mut self,
        visible: bool,
        fits: bool,
        session: Session,
        table: Table,
        key: &Key,
    ) -> Result<bool, TxFault>
        requires session { IsTrue (is_session session.0) }
        requires limits { IsTrue (change_fits (Del table key.now)) }
        ensures does { DelDoes self.old self.new session.0 (Del table key.now) fits visible result }
        ensures no_page { (fault : PageFault) → result ≡ Err (TxFault.Page fault) → ⊥ }
    {
        if let Some(holder) = self.locks.holder(session, table, Some(key), true) {
            return Err(TxFault::Locked(holder));
        }
        self.del_where(visible, fits, session, table, key)
    }

    // Deletes the row, which the session sees or not.
    fn del_where(
        &mut self,
        visible: bool,
        fits: bool,
        session: Session,
        table: Table,
        key: &Key,
    ) -> Result<bool, TxFault>
        requires session { IsTrue (is_session session.0) }
        requires limits { IsTrue (change_fits (Del table key.now)) }
        requires free { holder_in self.old.locks session.0 (ExclusiveKey (table.0, key.now)) ≡ None }
        ensures does { DelDoes self.old self.new session.0 (Del table key.now) fits visible result }
        ensures no_page { (fault : PageFault) → result ≡ Err (TxFault.Page fault) → ⊥ }
    {
        if visible {
            self.del_seen(fits, session, table, key)?;
        } else {
            self.locks.exclusive_key(session, table, key)?;
        }
        Ok(visible)
    }

    // Deletes a row that the session sees.
    fn del_seen(
        &mut self,
        fits: bool,
        session: Session,
        table: Table,
        key: &Key,
    ) -> Result<(), TxFault>
        requires session { IsTrue (is_session session.0) }
        requires limits { IsTrue (change_fits (Del table key.now)) }
        requires free { holder_in self.old.locks session.0 (ExclusiveKey (table.0, key.now)) ≡ None }
        ensures { PutDoes self.old self.new session.0 (Del table key.now) fits result }
    {
        let bytes = self.sessions[session.0 as usize].bytes_with_del(table, key);
        if self.most < bytes {
            return Err(TxFault::TooLarge(bytes));
        }
        let Ok(change) = del_of(table, key) else {
            return Err(TxFault::Memory);
        };
        if !fits {
            return Err(TxFault::Full);
        }
        self.change(session, table, key, change, bytes)
    }

    // Makes a change that no session bars and that is not too large.
    fn change(
        &mut self,
        session: Session,
        table: Table,
        key: &Key,
        change: Change,
        bytes: u64,
    ) -> Result<(), TxFault>
        requires session { IsTrue (is_session session.0) }
        requires limits { IsTrue (change_fits change) }
        requires place { place_of change ≡ (table.0, key.now) }
        requires bytes { bytes ≡ bytes_with self.old session.0 change }
        requires small { bytes ≤ self.old.most }
        requires free { holder_in self.old.locks session.0 (ExclusiveKey (table.0, key.now)) ≡ None }
        ensures { PutDoes self.old self.new session.0 change true result }
    {
        match self.sessions[session.0 as usize].change(
            change,
            bytes,
            &mut self.locks,
            session,
            table,
            key,
        ) {
            Ok(()) => Ok(()),
            Err(Memory) => Err(TxFault::Memory),
        }
    }

    /// How many keys the session has changed.
    pub fn changed(&self, session: Session) -> u32
        requires session { IsTrue (is_session session.0) }
        ensures count { result ≡ len (changes_of self.now session.0) }
        ensures each_fits { IsTrue (list_all change_fits (values (changes_of self.now session.0))) }
    {
        self.sessions[session.0 as usize].len()
    }

    /// The last changes of the session after a place, by table and key.
    pub fn changes_behind(
        &self,
        session: Session,
        table: Table,
        after: &KeyBuf,
    ) -> Range<'_, ChangePlace, Change>
        requires session { IsTrue (is_session session.0) }
        ensures behind { (at : ℕ)
            × IsPast place_of (values (changes_of self.now session.0)) table.0 after.now.items at
            × (result ≡ drop at (map keyed_change (values (changes_of self.now session.0)))) }
        ensures ascend { let changes = values (changes_of self.now session.0) in
            IsTrue (rises place_cmp (map place_of changes)) }
    {
        self.sessions[session.0 as usize].behind(table, after)
    }

    /// The last change of each key of the session, by table and key, as a commit group has them.
    /// The session has them still. They stand in room that was reserved as they were made: where
    /// they are not committed, `give_back` returns it. It fails only where no more can be counted
    /// that share a key or a value.
    pub fn listed(&mut self, session: Session) -> Result<Vec<Change>, Memory>
        requires session { IsTrue (is_session session.0) }
        ensures same { self.new ≡ self.old }
        ensures value { IfOk result (λ changes.
            changes.items ≡ values (changes_of self.old session.0)) }
        ensures ascend { IfOk result (λ changes.
            IsTrue (rises place_cmp (map place_of changes.items))) }
        ensures each_fits { IfOk result (λ changes.
            IsTrue (list_all change_fits changes.items)) }
        ensures fit { IfOk result (λ changes. group_bytes changes.items ≤ longest_group) }
    {
        self.sessions[session.0 as usize].listed(self.alloc)
    }

    /// The commit group of the session's net changes in place of what stood in `into`: the last
    /// change of each key, by table and key. The session has them still. It takes no memory.
    pub fn net_changes(&self, session: Session, name: Name, commit: u64, into: &mut GroupBuf)
        requires session { IsTrue (is_session session.0) }
        requires numbers { (name.birth < number_limit) × (name.generation < number_limit)
            × (commit < number_limit) }
        ensures group { Spells group_format (record {
          name = name;
          number = commit;
          changes = values (changes_of self.now session.0);
        }) into.new }
        ensures len { length into.new ≡ group_bytes (values (changes_of self.now session.0)) }
        ensures fit { length into.new ≤ longest_group }
    {
        self.sessions[session.0 as usize].encode(name, commit, into);
    }

    /// Takes back the room of changes that were listed and are not committed.
    pub fn give_back(&mut self, session: Session, listed: Vec<Change>)
        requires session { IsTrue (is_session session.0) }
        ensures { self.new ≡ self.old }
    {
        self.sessions[session.0 as usize].give_back(listed);
    }

    /// Ends the session's transaction without its changes. Where it has none, nothing changes.
    pub fn rollback(&mut self, session: Session)
        requires session { IsTrue (is_session session.0) }
        ensures { EndsTransaction self.old self.new session.0 }
    {
        self.ended(session);
    }

    /// The session's transaction has ended: it has no locks and no changes any more.
    pub fn ended(&mut self, session: Session)
        requires session { IsTrue (is_session session.0) }
        ensures { EndsTransaction self.old self.new session.0 }
    {
        self.locks.release(session);
        self.sessions[session.0 as usize].clear();
    }
}
