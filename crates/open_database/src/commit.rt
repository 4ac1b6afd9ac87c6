//! The end of a transaction by a commit.
ghost use Rattle.std.specs.Prelude.{◌≡◌, ℕ, ◌+◌, ◌-◌, ◌≤◌, ◌^◌, List, Err, IfOk, OnOk, IsTrue};
ghost use Rattle.std.specs.FinMap.{len};
ghost use Rattle.mdb_model.specs.Answers.{plain};
ghost use Rattle.mdb_model.specs.Causes.{Rose};
ghost use Rattle.mdb_model.specs.Script.{is_session};
ghost use Rattle.mdb_model.specs.Worlds.{World};
ghost use Rattle.mdb_model.specs.declared.script.Command.TheVariants.{CommitWork};
ghost use Rattle.mdb_host.specs.Disk.{Disk, Keeps};
ghost use Rattle.transactions.specs.Ongoing.{changes_of};
ghost use Rattle.session_rows.specs.Replies.{IsRefusal};
ghost use Rattle.open_database.specs.declared.database.Access.TheVariants.{Online};
ghost use Rattle.open_database.specs.Serving.{IsSoundDatabase, FitsOpen, LineDoes, greatest_number};
ghost use Rattle.open_database.specs.Refusing.{KeepsDatabase};
ghost use Rattle.open_database.specs.Replies.{IsInside};

use crate::database::{Access, Database};
use crate::group::commit_group;
use live_area::what_is_served;
use mdb_host::Host;
use mdb_model::fault::PageFault;
use mdb_model::name::{Session, State};
use mdb_model::script::{Refusal, Reply};
use redo_ring::Ring;
use space_lines::{a_counted_commit_has_room, end_commit, give_up};

impl Database {
    /// Commits the session's transaction: its group is appended to the log, and its changes are set
    /// on the rows. A savepoint comes in front or in the middle where room is short. It takes no
    /// memory. Where a device fails, only the next restart finds whether the commit is kept: the
    /// caller goes offline.
    pub fn commit<H: Host>(&mut self, host: &mut H, session: Session) -> Result<Reply, PageFault>
        requires session { IsTrue (is_session session.0) }
        requires sound { IsSoundDatabase H.tells self.old (H.disk host.old) }
        requires low { greatest_number self.old ≤ 2 ^ 62 - 2 ^ 40 }
        ensures sound { OnOk result (IsSoundDatabase H.tells self.new (H.disk host.new)) }
        ensures numbers { OnOk result
            (greatest_number self.new ≤ greatest_number self.old + 2 ^ 35) }
        ensures does { H.tells → (ws : List World)
            → FitsOpen H.tells self.old (H.disk host.old) ws
            → LineDoes H.tells (H.disk host.old) (H.disk host.new) ws (CommitWork session) plain
            self.new result }
        ensures refused { IfOk result (λ reply. IsRefusal reply → KeepsDatabase self.old self.new) }
        ensures inside { IfOk result IsInside }
        ensures cause { result ≡ Err PageFault.Failed
            → Rose (H.faults host.old) (H.faults host.new) }
        ensures later { H.faults host.old ≤ H.faults host.new }
        ensures keeps { H.tells → Keeps (H.disk host.old) (H.disk host.new) }
        ensures say_faults { H.say_faults host.new ≡ H.say_faults host.old }
    {
        match self.access {
            Access::Admin => Ok(Reply::Refused(Refusal::WrongState(State::Admin))),
            Access::Online => self.commit_work(host, session),
        }
    }

    // Commits what the session has changed.
    fn commit_work<H: Host>(&mut self, host: &mut H, session: Session) -> Result<Reply, PageFault>
        requires session { IsTrue (is_session session.0) }
        requires online { self.old.access ≡ Online }
        requires sound { IsSoundDatabase H.tells self.old (H.disk host.old) }
        requires low { greatest_number self.old ≤ 2 ^ 62 - 2 ^ 40 }
        ensures sound { OnOk result (IsSoundDatabase H.tells self.new (H.disk host.new)) }
        ensures numbers { OnOk result
            (greatest_number self.new ≤ greatest_number self.old + 2 ^ 35) }
        ensures does { H.tells → (ws : List World)
            → FitsOpen H.tells self.old (H.disk host.old) ws
            → LineDoes H.tells (H.disk host.old) (H.disk host.new) ws (CommitWork session) plain
            self.new result }
        ensures refused { IfOk result (λ reply. IsRefusal reply → KeepsDatabase self.old self.new) }
        ensures inside { IfOk result IsInside }
        ensures cause { result ≡ Err PageFault.Failed
            → Rose (H.faults host.old) (H.faults host.new) }
        ensures later { H.faults host.old ≤ H.faults host.new }
        ensures keeps { H.tells → Keeps (H.disk host.old) (H.disk host.new) }
        ensures say_faults { H.say_faults host.new ≡ H.say_faults host.old }
    {
        if self.transactions.changed(session) == 0 {
            give_up(&mut self.transactions, &mut self.space, session);
            return Ok(Reply::NothingToCommit);
        }
        self.commit_changes(host, session)
    }

    // Commits what the session has changed, which is something.
    fn commit_changes<H: Host>(
        &mut self,
        host: &mut H,
        session: Session,
    ) -> Result<Reply, PageFault>
        requires session { IsTrue (is_session session.0) }
        requires online { self.old.access ≡ Online }
        requires some { len (changes_of self.old.transactions session.0) ≡ 0 → ⊥ }
        requires sound { IsSoundDatabase H.tells self.old (H.disk host.old) }
        requires low { greatest_number self.old ≤ 2 ^ 62 - 2 ^ 40 }
        ensures sound { OnOk result (IsSoundDatabase H.tells self.new (H.disk host.new)) }
        ensures numbers { OnOk result
            (greatest_number self.new ≤ greatest_number self.old + 2 ^ 35) }
        ensures does { H.tells → (ws : List World)
            → FitsOpen H.tells self.old (H.disk host.old) ws
            → LineDoes H.tells (H.disk host.old) (H.disk host.new) ws (CommitWork session) plain
            self.new result }
        ensures refused { IfOk result (λ reply. IsRefusal reply → KeepsDatabase self.old self.new) }
        ensures inside { IfOk result IsInside }
        ensures cause { result ≡ Err PageFault.Failed
            → Rose (H.faults host.old) (H.faults host.new) }
        ensures later { H.faults host.old ≤ H.faults host.new }
        ensures keeps { H.tells → Keeps (H.disk host.old) (H.disk host.new) }
        ensures say_faults { H.say_faults host.new ≡ H.say_faults host.old }
    {
        what_is_served::<H>();
        a_counted_commit_has_room();
        let name = self.area.ring.name;
        let number = self.area.ring.last_commit + 1;
        self.transactions
            .net_changes(session, name, number, &mut self.group);
        if !commit_group(&mut self.area, host, &self.group)? {
            return Ok(Reply::Refused(log_full(&self.area.ring)));
        }
        end_commit(&mut self.transactions, &mut self.space, session);
        Ok(Reply::Committed(self.area.ring.last_commit))
    }
}

// The log has no room for a group beside what is not saved.
fn log_full(ring: &Ring) -> Refusal
    requires { ring.now.saved_position ≤ ring.now.end_position }
    ensures { result ≡ Refusal.LogFull (ring.now.end_position - ring.now.saved_position)
        ring.now.size }
{
    Refusal::LogFull {
        unsaved: ring.end_position - ring.saved_position,
        size: ring.size,
    }
}
