//! The lines of sessions on an open database, but for commits: reads, changes, scans and the end of
//! a transaction that is given up.
ghost use Rattle.std.specs.Prelude.{◌≡◌, ◌≤◌, List, Some, Err, OnOk, IsTrue};
ghost use Rattle.mdb_model.specs.Answers.{plain};
ghost use Rattle.mdb_model.specs.Causes.{Rose};
ghost use Rattle.mdb_model.specs.Script.{is_session, is_table, is_key};
ghost use Rattle.mdb_model.specs.Worlds.{World};
ghost use Rattle.mdb_model.specs.declared.change.Change.TheVariants.{Put, Del};
ghost use Rattle.mdb_model.specs.declared.fault.PageFault.TheVariants.{Failed};
ghost use Rattle.mdb_model.specs.declared.script.Command.TheVariants.{GetRow, PutRow, DelRow, ScanTable, RollbackWork};
ghost use Rattle.mdb_host.specs.Disk.{Keeps};
ghost use Rattle.mdb_bytes.specs.Groups.{change_fits};
ghost use Rattle.session_rows.specs.Replies.{IsRefusal, scan_answer};
ghost use Rattle.store_rows.specs.StoredRows.{HasRows};
ghost use Rattle.open_database.specs.declared.database.Access.TheVariants.{Online};
ghost use Rattle.open_database.specs.Outside.{page_reading, StandsFor};
ghost use Rattle.open_database.specs.Refusing.{KeepsDatabase};
ghost use Rattle.open_database.specs.Replies.{IsInside};
ghost use Rattle.open_database.specs.Scanning.{ReadsRow};
ghost use Rattle.open_database.specs.Serving.{IsSoundDatabase, greatest_number, FitsOpen, LineDoes};
ghost use Rattle.open_database.specs.Stage.{RowsAreOnPages};
ghost use Rattle.open_database.specs.Stretch.{Completes};
ghost use Rattle.open_database.specs.Taking.{seen_by, CanScan};
ghost use Rattle.open_database.specs.RowLines.{KeepsRows, TakesOpenLine};

use crate::database::{Access, Database};
use crate::rows::{del_line, get_line, next_line, put_line};
use known_needs::rows_that_fit_are_few;
use live_area::{calls_keep_serving, what_is_served};
use mdb_host::Host;
use mdb_model::bytes::{Key, KeyBuf, Value, ValueBuf};
use mdb_model::fault::PageFault;
use mdb_model::name::{Session, State, Table};
use mdb_model::script::{Refusal, Reply};
use session_rows::open_scan;
use space_lines::{a_read_leaves_it_counted, give_up};

impl Database {
    /// The value of a row, as the session sees it. After a fault the database has to be given up.
    pub fn get<H: Host>(
        &mut self,
        host: &mut H,
        session: Session,
        table: Table,
        key: &Key,
    ) -> Result<Reply, PageFault>
        requires session { IsTrue (is_session session.0) }
        requires table { IsTrue (is_table table.0) }
        requires key { IsTrue (is_key key.now) }
        requires sound { IsSoundDatabase H.tells self.old (H.disk host.old) }
        ensures takes { TakesOpenLine H.tells (H.disk host.old) (H.disk host.new)
            (H.faults host.old) (H.faults host.new) self.old self.new result }
        ensures does { H.tells → (ws : List World) → FitsOpen H.tells self.old (H.disk host.old) ws
            → LineDoes H.tells (H.disk host.old) (H.disk host.new) ws
            (GetRow session table key.now) plain self.new result }
        ensures say_faults { H.say_faults host.new ≡ H.say_faults host.old }
    {
        match self.access {
            Access::Admin => Ok(Reply::Refused(Refusal::WrongState(State::Admin))),
            Access::Online => self.get_row(host, session, table, key),
        }
    }

    /// Puts a value, in the session's transaction alone. After a fault the database has to be given
    /// up.
    pub fn put<H: Host>(
        &mut self,
        host: &mut H,
        session: Session,
        table: Table,
        key: &Key,
        value: &Value,
    ) -> Result<Reply, PageFault>
        requires session { IsTrue (is_session session.0) }
        requires fits { IsTrue (change_fits (Put table key.now value.now)) }
        requires sound { IsSoundDatabase H.tells self.old (H.disk host.old) }
        ensures takes { TakesOpenLine H.tells (H.disk host.old) (H.disk host.new)
            (H.faults host.old) (H.faults host.new) self.old self.new result }
        ensures does { RowsAreOnPages → H.tells → (ws : List World)
            → FitsOpen H.tells self.old (H.disk host.old) ws
            → LineDoes H.tells (H.disk host.old) (H.disk host.new) ws
            (PutRow session table key.now value.now) plain self.new result }
        ensures say_faults { H.say_faults host.new ≡ H.say_faults host.old }
    {
        match self.access {
            Access::Admin => Ok(Reply::Refused(Refusal::WrongState(State::Admin))),
            Access::Online => self.put_row(host, session, table, key, value),
        }
    }

    /// Deletes a row that the session sees, in its transaction alone. After a fault the database
    /// has to be given up.
    pub fn del<H: Host>(
        &mut self,
        host: &mut H,
        session: Session,
        table: Table,
        key: &Key,
    ) -> Result<Reply, PageFault>
        requires session { IsTrue (is_session session.0) }
        requires fits { IsTrue (change_fits (Del table key.now)) }
        requires sound { IsSoundDatabase H.tells self.old (H.disk host.old) }
        ensures takes { TakesOpenLine H.tells (H.disk host.old) (H.disk host.new)
            (H.faults host.old) (H.faults host.new) self.old self.new result }
        ensures does { RowsAreOnPages → H.tells → (ws : List World)
            → FitsOpen H.tells self.old (H.disk host.old) ws
            → LineDoes H.tells (H.disk host.old) (H.disk host.new) ws
            (DelRow session table key.now) plain self.new result }
        ensures say_faults { H.say_faults host.new ≡ H.say_faults host.old }
    {
        match self.access {
            Access::Admin => Ok(Reply::Refused(Refusal::WrongState(State::Admin))),
            Access::Online => self.del_row(host, session, table, key),
        }
    }

    /// Locks a table for a scan. Its rows are then asked for one at a time. It calls no device.
    pub fn scan<H: Host>(&mut self, host: &H, session: Session, table: Table) -> Reply
        requires session { IsTrue (is_session session.0) }
        requires table { IsTrue (is_table table.0) }
        requires sound { IsSoundDatabase H.tells self.old (H.disk host.now) }
        ensures sound { IsSoundDatabase H.tells self.new (H.disk host.now) }
        ensures numbers { greatest_number self.new ≡ greatest_number self.old }
        ensures does { H.tells → (ws : List World)
            → FitsOpen H.tells self.old (H.disk host.now) ws
            → Completes page_reading StandsFor (H.disk host.now) (H.disk host.now) ws
            (Some (ScanTable session table))
            (scan_answer (seen_by self.new (H.disk host.now) session) table result)
            (FitsOpen H.tells self.new (H.disk host.now)) }
        ensures can_scan { H.tells → (ws : List World)
            → FitsOpen H.tells self.old (H.disk host.now) ws
            → CanScan (seen_by self.new (H.disk host.now) session) table }
        ensures same { HasRows H.tells self.old.area.store (H.disk host.now).seen
            → KeepsRows H.tells self.old self.new (H.disk host.now) (H.disk host.now) }
        ensures inside { IsInside result }
        ensures refused { IsRefusal result → KeepsDatabase self.old self.new }
    {
        // Laws that the promise stands on.
        what_is_served::<H>();
        rows_that_fit_are_few();
        let reply = self.begin_scan(host, session, table);
        // Opens the invariant: each change is within its limits, and they can be counted.
        let _changed = self.transactions.changed(session);
        reply
    }

    /// Gives up the session's transaction. It calls no device.
    pub fn rollback<H: Host>(&mut self, host: &H, session: Session) -> Reply
        requires session { IsTrue (is_session session.0) }
        requires sound { IsSoundDatabase H.tells self.old (H.disk host.now) }
        ensures sound { IsSoundDatabase H.tells self.new (H.disk host.now) }
        ensures numbers { greatest_number self.new ≡ greatest_number self.old }
        ensures does { H.tells → (ws : List World)
            → FitsOpen H.tells self.old (H.disk host.now) ws
            → Completes page_reading StandsFor (H.disk host.now) (H.disk host.now) ws
            (Some (RollbackWork session)) (plain result)
            (FitsOpen H.tells self.new (H.disk host.now)) }
        ensures same { HasRows H.tells self.old.area.store (H.disk host.now).seen
            → KeepsRows H.tells self.old self.new (H.disk host.now) (H.disk host.now) }
        ensures inside { IsInside result }
        ensures refused { IsRefusal result → KeepsDatabase self.old self.new }
    {
        match self.access {
            Access::Admin => Reply::Refused(Refusal::WrongState(State::Admin)),
            Access::Online => self.give_up(host, session),
        }
    }

    /// The next row of a scan that is open: the first one after a key, which is empty at its start,
    /// as the session sees it. False where there is none, and then `key` and `value` have anything.
    /// After a fault the database has to be given up.
    pub fn scan_next<H: Host>(
        &mut self,
        host: &mut H,
        session: Session,
        table: Table,
        after: &KeyBuf,
        key: &mut KeyBuf,
        value: &mut ValueBuf,
    ) -> Result<bool, PageFault>
        requires session { IsTrue (is_session session.0) }
        requires table { IsTrue (is_table table.0) }
        requires sound { IsSoundDatabase H.tells self.old (H.disk host.old) }
        ensures sound { IsSoundDatabase H.tells self.new (H.disk host.new) }
        ensures numbers { greatest_number self.new ≡ greatest_number self.old }
        ensures reads { H.tells → (ws : List World)
            → (fit : FitsOpen H.tells self.old (H.disk host.old) ws)
            → ReadsRow H.tells (H.disk host.old) (H.disk host.new) fit.w ws self.old self.new
            session table after.now.items key.new.items value.new.items result }
        ensures same { HasRows H.tells self.old.area.store (H.disk host.old).seen
            → OnOk result (KeepsRows H.tells self.old self.new (H.disk host.old)
            (H.disk host.new)) }
        ensures keeps { H.tells → Keeps (H.disk host.old) (H.disk host.new) }
        ensures kept { KeepsDatabase self.old self.new }
        ensures later { H.faults host.old ≤ H.faults host.new }
        ensures cause { result ≡ Err Failed → Rose (H.faults host.old) (H.faults host.new) }
        ensures say_faults { H.say_faults host.new ≡ H.say_faults host.old }
    {
        calls_keep_serving::<H>();
        let (transactions, store) = (&self.transactions, &mut self.area.store);
        next_line(transactions, store, host, session, table, after, key, value)
    }

    // The value of a row, as the session sees it.
    fn get_row<H: Host>(
        &mut self,
        host: &mut H,
        session: Session,
        table: Table,
        key: &Key,
    ) -> Result<Reply, PageFault>
        requires session { IsTrue (is_session session.0) }
        requires table { IsTrue (is_table table.0) }
        requires key { IsTrue (is_key key.now) }
        requires sound { IsSoundDatabase H.tells self.old (H.disk host.old) }
        requires online { self.old.access ≡ Online }
        ensures takes { TakesOpenLine H.tells (H.disk host.old) (H.disk host.new)
            (H.faults host.old) (H.faults host.new) self.old self.new result }
        ensures does { H.tells → (ws : List World) → FitsOpen H.tells self.old (H.disk host.old) ws
            → LineDoes H.tells (H.disk host.old) (H.disk host.new) ws
            (GetRow session table key.now) plain self.new result }
        ensures say_faults { H.say_faults host.new ≡ H.say_faults host.old }
    {
        calls_keep_serving::<H>();
        a_read_leaves_it_counted();
        let (transactions, store) = (&mut self.transactions, &mut self.area.store);
        get_line(transactions, store, host, session, table, key)
    }

    // Puts a value, in the session's transaction alone.
    fn put_row<H: Host>(
        &mut self,
        host: &mut H,
        session: Session,
        table: Table,
        key: &Key,
        value: &Value,
    ) -> Result<Reply, PageFault>
        requires session { IsTrue (is_session session.0) }
        requires fits { IsTrue (change_fits (Put table key.now value.now)) }
        requires sound { IsSoundDatabase H.tells self.old (H.disk host.old) }
        requires online { self.old.access ≡ Online }
        ensures takes { TakesOpenLine H.tells (H.disk host.old) (H.disk host.new)
            (H.faults host.old) (H.faults host.new) self.old self.new result }
        ensures does { RowsAreOnPages → H.tells → (ws : List World)
            → FitsOpen H.tells self.old (H.disk host.old) ws
            → LineDoes H.tells (H.disk host.old) (H.disk host.new) ws
            (PutRow session table key.now value.now) plain self.new result }
        ensures say_faults { H.say_faults host.new ≡ H.say_faults host.old }
    {
        calls_keep_serving::<H>();
        let blocks = self.area.store.blocks();
        let (transactions, space) = (&mut self.transactions, &mut self.space);
        let store = &mut self.area.store;
        put_line(
            transactions,
            space,
            store,
            host,
            blocks,
            session,
            table,
            key,
            value,
        )
    }

    // Deletes a row that the session sees, in its transaction alone.
    fn del_row<H: Host>(
        &mut self,
        host: &mut H,
        session: Session,
        table: Table,
        key: &Key,
    ) -> Result<Reply, PageFault>
        requires session { IsTrue (is_session session.0) }
        requires fits { IsTrue (change_fits (Del table key.now)) }
        requires sound { IsSoundDatabase H.tells self.old (H.disk host.old) }
        requires online { self.old.access ≡ Online }
        ensures takes { TakesOpenLine H.tells (H.disk host.old) (H.disk host.new)
            (H.faults host.old) (H.faults host.new) self.old self.new result }
        ensures does { RowsAreOnPages → H.tells → (ws : List World)
            → FitsOpen H.tells self.old (H.disk host.old) ws
            → LineDoes H.tells (H.disk host.old) (H.disk host.new) ws
            (DelRow session table key.now) plain self.new result }
        ensures say_faults { H.say_faults host.new ≡ H.say_faults host.old }
    {
        calls_keep_serving::<H>();
        let blocks = self.area.store.blocks();
        let (transactions, space) = (&mut self.transactions, &mut self.space);
        let store = &mut self.area.store;
        del_line(
            transactions,
            space,
            store,
            host,
            blocks,
            session,
            table,
            key,
        )
    }

    // Locks a table for a scan.
    fn begin_scan<H: Host>(&mut self, host: &H, session: Session, table: Table) -> Reply
        requires session { IsTrue (is_session session.0) }
        requires sound { IsSoundDatabase H.tells self.old (H.disk host.now) }
        ensures area { self.new.area ≡ self.old.area }
        ensures sound { IsSoundDatabase H.tells self.new (H.disk host.now) }
        ensures numbers { greatest_number self.new ≡ greatest_number self.old }
        ensures does { H.tells → (ws : List World)
            → FitsOpen H.tells self.old (H.disk host.now) ws
            → Completes page_reading StandsFor (H.disk host.now) (H.disk host.now) ws
            (Some (ScanTable session table))
            (scan_answer (seen_by self.new (H.disk host.now) session) table result)
            (FitsOpen H.tells self.new (H.disk host.now)) }
        ensures same { HasRows H.tells self.old.area.store (H.disk host.now).seen
            → KeepsRows H.tells self.old self.new (H.disk host.now) (H.disk host.now) }
        ensures inside { IsInside result }
        ensures refused { IsRefusal result → KeepsDatabase self.old self.new }
    {
        match self.access {
            Access::Admin => Reply::Refused(Refusal::WrongState(State::Admin)),
            Access::Online => self.lock_table(host, session, table),
        }
    }

    // Locks the table.
    fn lock_table<H: Host>(&mut self, host: &H, session: Session, table: Table) -> Reply
        requires session { IsTrue (is_session session.0) }
        requires online { self.old.access ≡ Online }
        requires sound { IsSoundDatabase H.tells self.old (H.disk host.now) }
        ensures area { self.new.area ≡ self.old.area }
        ensures sound { IsSoundDatabase H.tells self.new (H.disk host.now) }
        ensures numbers { greatest_number self.new ≡ greatest_number self.old }
        ensures does { H.tells → (ws : List World)
            → FitsOpen H.tells self.old (H.disk host.now) ws
            → Completes page_reading StandsFor (H.disk host.now) (H.disk host.now) ws
            (Some (ScanTable session table))
            (scan_answer (seen_by self.new (H.disk host.now) session) table result)
            (FitsOpen H.tells self.new (H.disk host.now)) }
        ensures same { HasRows H.tells self.old.area.store (H.disk host.now).seen
            → KeepsRows H.tells self.old self.new (H.disk host.now) (H.disk host.now) }
        ensures inside { IsInside result }
        ensures refused { IsRefusal result → KeepsDatabase self.old self.new }
    {
        let _host = host;
        a_read_leaves_it_counted();
        open_scan(&mut self.transactions, session, table)
    }

    // Gives up the session's transaction.
    fn give_up<H: Host>(&mut self, host: &H, session: Session) -> Reply
        requires session { IsTrue (is_session session.0) }
        requires online { self.old.access ≡ Online }
        requires sound { IsSoundDatabase H.tells self.old (H.disk host.now) }
        ensures sound { IsSoundDatabase H.tells self.new (H.disk host.now) }
        ensures numbers { greatest_number self.new ≡ greatest_number self.old }
        ensures does { H.tells → (ws : List World)
            → FitsOpen H.tells self.old (H.disk host.now) ws
            → Completes page_reading StandsFor (H.disk host.now) (H.disk host.now) ws
            (Some (RollbackWork session)) (plain result)
            (FitsOpen H.tells self.new (H.disk host.now)) }
        ensures same { HasRows H.tells self.old.area.store (H.disk host.now).seen
            → KeepsRows H.tells self.old self.new (H.disk host.now) (H.disk host.now) }
        ensures inside { IsInside result }
        ensures refused { IsRefusal result → KeepsDatabase self.old self.new }
    {
        let _host = host;
        give_up(&mut self.transactions, &mut self.space, session)
    }
}
