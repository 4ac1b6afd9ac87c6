//! The kernel takes the lines of a script one by one.
ghost use Rattle.std.specs.Prelude.{◌≡◌, ◌-◌, ◌≤◌, ◌^◌, List, IsTrue, Some, None};
ghost use Rattle.mdb_model.specs.Answers.{plain};
ghost use Rattle.mdb_model.specs.Causes.{Rose};
ghost use Rattle.mdb_model.specs.Images.{Image};
ghost use Rattle.mdb_model.specs.Script.{is_in_range, is_session, is_table};
ghost use Rattle.mdb_model.specs.Worlds.{World};
ghost use Rattle.mdb_host.specs.Disk.{Disk};
ghost use Rattle.open_database.specs.Outside.{page_reading, StandsFor};
ghost use Rattle.open_database.specs.Stretch.{LeavesOnly, Completes};
ghost use Rattle.open_database.specs.Taking.{closes};
ghost use Rattle.db_kernel.specs.Kept.{IsSoundKernel, FitsWorlds, greatest_in, answer_of, CanAsk, IsScan, state_of, opens, opened_reply, page_refusal};
ghost use Rattle.db_kernel.specs.Scanning.{TakesRow, ReadsRow};
ghost use Rattle.db_kernel.specs.Taking.{TakesLine};

use crate::opening::open_devices;
use live_area::{a_world_that_stands, what_is_served};
use mdb_host::Host;
use mdb_model::bytes::{KeyBuf, ValueBuf};
use mdb_model::fault::PageFault;
use mdb_model::name::{Session, State, Table};
use mdb_model::script::{Command, Next, Refusal, Reply};
use open_database::{Access, Database};
use std::alloc::Global;

/// A kernel: off, or with an open database.
#[derive(Drop)]
pub struct Kernel {
    pub alloc: Global,
    pub database: Option<Database>,
}

impl Kernel {
    /// A kernel that is off.
    pub fn new(alloc: Global) -> Kernel
        ensures { result.database ≡ None }
    {
        Kernel {
            alloc,
            database: None,
        }
    }

    /// The operational state.
    pub fn state(&self) -> State
        ensures { result ≡ state_of self.now.database }
    {
        match &self.database {
            None => State::Offline,
            Some(database) => database.state(),
        }
    }

    /// Takes a line and answers it. The rows of a scan are asked for by `scan_next` once it is
    /// open. After DAMAGED and DEVICE the kernel is off.
    pub fn command<H: Host>(&mut self, host: &mut H, line: &Command) -> Reply
        requires range { IsTrue (is_in_range line.now) }
        requires sound { IsSoundKernel H.tells self.old.database (H.disk host.old) }
        requires low { greatest_in self.old.database ≤ 2 ^ 62 - 2 ^ 40 }
        ensures takes { TakesLine H.tells (H.disk host.old) (H.disk host.new) (H.faults host.old)
            (H.faults host.new) self.old.database self.new.database line.now result }
        ensures does { H.tells → (ws : List World)
            → FitsWorlds self.old.database (H.disk host.old) ws
            → LeavesOnly page_reading StandsFor (H.disk host.old) ws
            → Completes page_reading StandsFor (H.disk host.old) (H.disk host.new) ws
            (Some line.now) (answer_of line.now self.new.database (H.disk host.new) result)
            (FitsWorlds self.new.database (H.disk host.new)) }
        ensures can_ask { H.tells → (ws : List World)
            → FitsWorlds self.old.database (H.disk host.old) ws
            → CanAsk line.now self.new.database (H.disk host.new) }
        ensures say_faults { H.say_faults host.new ≡ H.say_faults host.old }
    {
        match &self.database {
            None => self.command_off(host, line),
            Some(_) => self.command_open(host, line),
        }
    }

    /// The next row of a scan that is open: the first one after a key, which is empty at its
    /// start. A row that is read may call a device; after a fault the kernel is off.
    pub fn scan_next<H: Host>(
        &mut self,
        host: &mut H,
        session: Session,
        table: Table,
        after: &KeyBuf,
        key: &mut KeyBuf,
        value: &mut ValueBuf,
    ) -> Next
        requires session { IsTrue (is_session session.0) }
        requires table { IsTrue (is_table table.0) }
        requires sound { IsSoundKernel H.tells self.old.database (H.disk host.old) }
        ensures takes { TakesRow H.tells (H.disk host.old) (H.disk host.new) (H.faults host.old)
            (H.faults host.new) self.old.database self.new.database result }
        ensures reads { H.tells → (ws : List World)
            → FitsWorlds self.old.database (H.disk host.old) ws
            → LeavesOnly page_reading StandsFor (H.disk host.old) ws
            → ReadsRow (H.disk host.old) (H.disk host.new) ws self.old.database
            self.new.database session table after.now.items key.new.items value.new.items result }
        ensures say_faults { H.say_faults host.new ≡ H.say_faults host.old }
    {
        let Some(database) = &mut self.database else {
            return Next::End;
        };
        match database.scan_next(host, session, table, after, key, value) {
            Ok(true) => Next::Row,
            Ok(false) => Next::End,
            Err(fault) => {
                turn_off(&mut self.database);
                Next::Fault(Reply::Refused(refusal_of(fault)))
            }
        }
    }

    // A line where no database is open.
    fn command_off<H: Host>(&mut self, host: &mut H, line: &Command) -> Reply
        requires off { self.old.database ≡ None }
        ensures takes { TakesLine H.tells (H.disk host.old) (H.disk host.new) (H.faults host.old)
            (H.faults host.new) self.old.database self.new.database line.now result }
        ensures does { H.tells → (ws : List World)
            → FitsWorlds None (H.disk host.old) ws
            → LeavesOnly page_reading StandsFor (H.disk host.old) ws
            → Completes page_reading StandsFor (H.disk host.old) (H.disk host.new) ws
            (Some line.now) (answer_of line.now self.new.database (H.disk host.new) result)
            (FitsWorlds self.new.database (H.disk host.new)) }
        ensures none { IsScan line.now → self.new.database ≡ None }
        ensures say_faults { H.say_faults host.new ≡ H.say_faults host.old }
    {
        match line {
            Command::DbAdmin => self.restart(host, Access::Admin),
            Command::DbOnline => self.restart(host, Access::Online),
            Command::DbState => Reply::StateIs(State::Offline),
            Command::Kill => Reply::OfflineNow,
            Command::GetRow(_, _, _)
            | Command::PutRow(_, _, _, _)
            | Command::DelRow(_, _, _)
            | Command::ScanTable(_, _)
            | Command::CommitWork(_)
            | Command::RollbackWork(_)
            | Command::DbOffline
            | Command::MakeSavepoint
            | Command::Info => Reply::Refused(Refusal::WrongState(State::Offline)),
            Command::TaskSavepoint
            | Command::TaskBackup(_, _)
            | Command::TurnSavepoint
            | Command::TurnBackup
            | Command::MediumPut(_, _)
            | Command::MediumDelete(_)
            | Command::MediumList
            | Command::BackupStart(_, _)
            | Command::Recover { .. }
            | Command::SnapshotCreate
            | Command::SnapshotDrop(_)
            | Command::SnapshotRevert(_)
            | Command::CheckData => Reply::Refused(Refusal::Syntax),
        }
    }

    // A line of an open database.
    fn command_open<H: Host>(&mut self, host: &mut H, line: &Command) -> Reply
        requires range { IsTrue (is_in_range line.now) }
        requires open { self.old.database ≡ None → ⊥ }
        requires sound { IsSoundKernel H.tells self.old.database (H.disk host.old) }
        requires low { greatest_in self.old.database ≤ 2 ^ 62 - 2 ^ 40 }
        ensures takes { TakesLine H.tells (H.disk host.old) (H.disk host.new) (H.faults host.old)
            (H.faults host.new) self.old.database self.new.database line.now result }
        ensures does { H.tells → (ws : List World)
            → FitsWorlds self.old.database (H.disk host.old) ws
            → Completes page_reading StandsFor (H.disk host.old) (H.disk host.new) ws
            (Some line.now) (answer_of line.now self.new.database (H.disk host.new) result)
            (FitsWorlds self.new.database (H.disk host.new)) }
        ensures can_ask { H.tells → (ws : List World)
            → FitsWorlds self.old.database (H.disk host.old) ws
            → CanAsk line.now self.new.database (H.disk host.new) }
        ensures say_faults { H.say_faults host.new ≡ H.say_faults host.old }
    {
        let alloc = self.alloc;
        let Some(database) = &mut self.database else {
            return Reply::Refused(Refusal::Syntax);
        };
        match database.command(alloc, host, line) {
            Ok(reply) if closes_database(line) => {
                turn_off(&mut self.database);
                reply
            }
            Ok(reply) => reply,
            Err(fault) => {
                turn_off(&mut self.database);
                Reply::Refused(refusal_of(fault))
            }
        }
    }

    // Opens the database.
    fn restart<H: Host>(&mut self, host: &mut H, access: Access) -> Reply
        requires off { self.old.database ≡ None }
        ensures takes { TakesLine H.tells (H.disk host.old) (H.disk host.new) (H.faults host.old)
            (H.faults host.new) self.old.database self.new.database (opens access) result }
        ensures does { H.tells → (ws : List World) → FitsWorlds None (H.disk host.old) ws
            → LeavesOnly page_reading StandsFor (H.disk host.old) ws
            → Completes page_reading StandsFor (H.disk host.old) (H.disk host.new) ws
            (Some (opens access)) (plain result)
            (FitsWorlds self.new.database (H.disk host.new)) }
        ensures say_faults { H.say_faults host.new ≡ H.say_faults host.old }
    {
        // Laws that the promise stands on.
        what_is_served::<H>();
        a_world_that_stands();
        match open_devices(self.alloc, host, access) {
            Ok(database) => {
                let commit = database.area.ring.last_commit;
                self.database = Some(database);
                opened(access, commit)
            }
            Err(refusal) => Reply::Refused(refusal),
        }
    }
}

// Drops the database. It has the room for what it drops to itself, since it is cleared at each call.
#[cold]
#[inline(never)]
fn turn_off(database: &mut Option<Database>)
    ensures { database.new ≡ None }
{
    *database = None;
}

// How a fault of pages is answered.
fn refusal_of(fault: PageFault) -> Refusal
    ensures { result ≡ page_refusal fault }
{
    match fault {
        PageFault::Failed => Refusal::DeviceFailed,
        PageFault::Damaged(damage) => Refusal::Damaged(damage),
    }
}

// Whether no database is open after a line.
fn closes_database(line: &Command) -> bool
    ensures { result ≡ closes line.now }
{
    matches!(line, Command::DbOffline | Command::Kill)
}

// How a database that was opened is told.
fn opened(access: Access, commit: u64) -> Reply
    ensures { result ≡ opened_reply access commit }
{
    match access {
        Access::Admin => Reply::AdminAt(commit),
        Access::Online => Reply::OnlineAt(commit),
    }
}
