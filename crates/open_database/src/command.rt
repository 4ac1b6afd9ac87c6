//! A line of an open database, whichever it is.
ghost use Rattle.std.specs.Prelude.{◌≡◌, ◌-◌, ◌≤◌, ◌^◌, List, IsTrue, IfOk, true};
ghost use Rattle.mdb_model.specs.Script.{is_in_range};
ghost use Rattle.mdb_model.specs.Worlds.{World};
ghost use Rattle.open_database.specs.Serving.{IsSoundDatabase, FitsOpen, greatest_number, open_state};
ghost use Rattle.open_database.specs.Stage.{RowsAreOnPages};
ghost use Rattle.open_database.specs.Taking.{closes, CanAskFor, DoesLine, TakesOpen};

use crate::database::{Access, Database};
use mdb_host::Host;
use mdb_model::fault::PageFault;
use mdb_model::name::State;
use mdb_model::script::{Command, Refusal, Reply};
use std::alloc::Global;

impl Database {
    /// Takes a line and answers it. After an error, and after a line that closes the database, the
    /// caller gives it up. The rows of a scan are asked for by `scan_next` once it is open.
    pub fn command<H: Host>(
        &mut self,
        alloc: Global,
        host: &mut H,
        line: &Command,
    ) -> Result<Reply, PageFault>
        requires range { IsTrue (is_in_range line.now) }
        requires sound { IsSoundDatabase H.tells self.old (H.disk host.old) }
        requires low { greatest_number self.old ≤ 2 ^ 62 - 2 ^ 40 }
        ensures takes { TakesOpen H.tells (H.disk host.old) (H.disk host.new) (H.faults host.old)
            (H.faults host.new) self.old self.new result }
        ensures does { RowsAreOnPages → H.tells → (ws : List World)
            → FitsOpen H.tells self.old (H.disk host.old) ws
            → DoesLine H.tells (H.disk host.old) (H.disk host.new) ws line.now self.new result }
        ensures closed { closes line.now ≡ true → IfOk result (λ reply. reply ≡ Reply.OfflineNow) }
        ensures can_ask { H.tells → (ws : List World)
            → FitsOpen H.tells self.old (H.disk host.old) ws
            → CanAskFor line.now self.new (H.disk host.new) }
        ensures say_faults { H.say_faults host.new ≡ H.say_faults host.old }
    {
        match line {
            Command::GetRow(session, table, key) => self.get(host, *session, *table, key),
            Command::PutRow(session, table, key, value) => {
                self.put(host, *session, *table, key, value)
            }
            Command::DelRow(session, table, key) => self.del(host, *session, *table, key),
            Command::ScanTable(session, table) => Ok(self.scan(host, *session, *table)),
            Command::CommitWork(session) => self.commit(host, *session),
            Command::RollbackWork(session) => Ok(self.rollback(host, *session)),
            Command::DbAdmin => self.go_admin(alloc, host),
            Command::DbOnline => Ok(self.go_online(host)),
            Command::DbOffline => self.close(host),
            Command::DbState => Ok(Reply::StateIs(self.state())),
            Command::Kill => Ok(Reply::OfflineNow),
            Command::MakeSavepoint => self.savepoint(host),
            Command::Info => Ok(self.info(host)),
            Command::TaskSavepoint
            | Command::TaskBackup(_, _)
            | Command::TurnSavepoint
            | Command::TurnBackup
            | Command::MediumPut(_, _)
            | Command::MediumDelete(_)
            | Command::MediumList
            | Command::BackupStart(_, _)
            | Command::Recover { .. }
            | Command::SnapshotCreate
            | Command::SnapshotDrop(_)
            | Command::SnapshotRevert(_)
            | Command::CheckData => Ok(Reply::Refused(Refusal::Syntax)),
        }
    }

    /// The operational state.
    pub fn state(&self) -> State
        ensures { result ≡ open_state self.now.access }
    {
        match self.access {
            Access::Admin => State::Admin,
            Access::Online => State::Online,
        }
    }
}
