//! A savepoint, what a database says of itself, and who may work with it.
ghost use Rattle.std.specs.Prelude.{◌≡◌, ℕ, ◌+◌, ◌-◌, ◌≤◌, ◌<◌, ◌^◌, List, Some, IfOk, IfErr, OnOk};
ghost use Rattle.mdb_model.specs.Answers.{plain};
ghost use Rattle.mdb_model.specs.Causes.{Rose, HasCause};
ghost use Rattle.mdb_model.specs.Worlds.{World, off, stopped};
ghost use Rattle.mdb_model.specs.declared.name.State.TheVariants as state;
ghost use Rattle.mdb_model.specs.declared.script.Command.TheVariants.{DbAdmin, DbOnline, DbOffline, MakeSavepoint, Info};
ghost use Rattle.mdb_host.specs.Disk.{Disk, Keeps};
ghost use Rattle.session_rows.specs.Replies.{IsRefusal};
ghost use Rattle.space_rule.specs.Spaces.{known_costs};
ghost use Rattle.open_database.specs.declared.database.Access.TheVariants.{Admin, Online};
ghost use Rattle.open_database.specs.Outside.{page_reading, StandsFor};
ghost use Rattle.open_database.specs.Refusing.{KeepsDatabase};
ghost use Rattle.open_database.specs.Replies.{IsInside};
ghost use Rattle.open_database.specs.Saving.{SaveLeaves, IsSavedOnly, CloseDoes};
ghost use Rattle.open_database.specs.Serving.{IsSoundDatabase, Serves, FitsOpen, LineDoes, greatest_number};
ghost use Rattle.open_database.specs.Stage.{RowsAreOnPages};
ghost use Rattle.open_database.specs.Stretch.{Completes};

use crate::database::{Access, Database};
use crate::sizes::{forget_changes, most_bytes};
use known_needs::what_is_loaded_is_known;
use live_area::{a_fresh_record_has_the_rows, what_is_served};
use mdb_host::Host;
use mdb_model::fault::PageFault;
use mdb_model::name::State;
use mdb_model::script::{Refusal, Reply};
use space_lines::{a_world_without_sessions_is_counted, info_need};
use std::alloc::Global;
use transactions::Transactions;

impl Database {
    /// Makes a savepoint of the rows as they are, with all commits. It takes no memory.
    pub fn savepoint<H: Host>(&mut self, host: &mut H) -> Result<Reply, PageFault>
        requires sound { IsSoundDatabase H.tells self.old (H.disk host.old) }
        requires low { greatest_number self.old ≤ 2 ^ 62 - 2 ^ 40 }
        ensures sound { OnOk result (IsSoundDatabase H.tells self.new (H.disk host.new)) }
        ensures numbers { OnOk result
            (greatest_number self.new ≤ greatest_number self.old + 2 ^ 35) }
        ensures does { RowsAreOnPages → H.tells → (ws : List World)
            → FitsOpen H.tells self.old (H.disk host.old) ws
            → LineDoes H.tells (H.disk host.old) (H.disk host.new) ws MakeSavepoint plain
            self.new result }
        ensures done { IfOk result (λ reply. reply ≡ Reply.SavepointDone) }
        ensures cause { HasCause (H.faults host.old) (H.faults host.new) result }
        ensures fault { IfErr result (λ fault. fault ≡ PageFault.Failed) }
        ensures keeps { H.tells → Keeps (H.disk host.old) (H.disk host.new) }
        ensures say_faults { H.say_faults host.new ≡ H.say_faults host.old }
    {
        self.save(host)?;
        Ok(Reply::SavepointDone)
    }

    /// The name, the numbers of the last commit and of the last one that is saved, the blocks of the
    /// data area and those that are needed. It calls no device.
    pub fn info<H: Host>(&self, host: &H) -> Reply
        requires sound { IsSoundDatabase H.tells self.now (H.disk host.now) }
        ensures does { RowsAreOnPages → H.tells → (ws : List World)
            → FitsOpen H.tells self.now (H.disk host.now) ws
            → Completes page_reading StandsFor (H.disk host.now) (H.disk host.now) ws (Some Info)
            (plain result) (FitsOpen H.tells self.now (H.disk host.now)) }
        ensures inside { IsInside result }
    {
        // Laws that the promise stands on.
        what_is_served::<H>();
        let _host = host;
        Reply::InfoIs {
            name: self.area.ring.name,
            commit: self.area.ring.last_commit,
            saved: self.area.ring.saved_commit,
            blocks: self.area.store.blocks() as u64,
            need: info_need(&self.space),
        }
    }

    /// Dismisses the sessions, where they were let in, and makes a savepoint.
    pub fn go_admin<H: Host>(&mut self, alloc: Global, host: &mut H) -> Result<Reply, PageFault>
        requires sound { IsSoundDatabase H.tells self.old (H.disk host.old) }
        requires low { greatest_number self.old ≤ 2 ^ 62 - 2 ^ 40 }
        ensures sound { OnOk result (IsSoundDatabase H.tells self.new (H.disk host.new)) }
        ensures numbers { OnOk result
            (greatest_number self.new ≤ greatest_number self.old + 2 ^ 35) }
        ensures does { H.tells → (ws : List World)
            → FitsOpen H.tells self.old (H.disk host.old) ws
            → LineDoes H.tells (H.disk host.old) (H.disk host.new) ws DbAdmin plain
            self.new result }
        ensures refused { IfOk result (λ reply. IsRefusal reply → KeepsDatabase self.old self.new) }
        ensures inside { IfOk result IsInside }
        ensures cause { HasCause (H.faults host.old) (H.faults host.new) result }
        ensures fault { IfErr result (λ fault. fault ≡ PageFault.Failed) }
        ensures keeps { H.tells → Keeps (H.disk host.old) (H.disk host.new) }
        ensures say_faults { H.say_faults host.new ≡ H.say_faults host.old }
    {
        match self.access {
            Access::Admin => Ok(Reply::Refused(Refusal::WrongState(State::Admin))),
            Access::Online => self.close_sessions(alloc, host),
        }
    }

    /// Lets the sessions in, where they were not. It calls no device.
    pub fn go_online<H: Host>(&mut self, host: &H) -> Reply
        ensures sound { IsSoundDatabase H.tells self.old (H.disk host.now)
            → IsSoundDatabase H.tells self.new (H.disk host.now) }
        ensures numbers { greatest_number self.new ≡ greatest_number self.old }
        ensures does { H.tells → (ws : List World) → FitsOpen H.tells self.old (H.disk host.now) ws
            → Completes page_reading StandsFor (H.disk host.now) (H.disk host.now) ws
            (Some DbOnline) (plain result) (FitsOpen H.tells self.new (H.disk host.now)) }
        ensures inside { IsInside result }
        ensures refused { IsRefusal result → KeepsDatabase self.old self.new }
    {
        // Laws that the promise stands on.
        what_is_served::<H>();
        let _host = host;
        match self.access {
            Access::Online => Reply::Refused(Refusal::WrongState(State::Online)),
            Access::Admin => {
                self.access = Access::Online;
                Reply::OnlineAt(self.area.ring.last_commit)
            }
        }
    }

    /// Makes a savepoint for the end of the work: the caller gives the database up.
    pub fn close<H: Host>(&mut self, host: &mut H) -> Result<Reply, PageFault>
        requires sound { IsSoundDatabase H.tells self.old (H.disk host.old) }
        requires low { greatest_number self.old ≤ 2 ^ 62 - 2 ^ 40 }
        ensures sound { OnOk result (IsSoundDatabase H.tells self.new (H.disk host.new)) }
        ensures numbers { OnOk result
            (greatest_number self.new ≤ greatest_number self.old + 2 ^ 35) }
        ensures does { H.tells → (ws : List World)
            → FitsOpen H.tells self.old (H.disk host.old) ws
            → CloseDoes (H.disk host.old) (H.disk host.new) ws result }
        ensures done { IfOk result (λ reply. reply ≡ Reply.OfflineNow) }
        ensures cause { HasCause (H.faults host.old) (H.faults host.new) result }
        ensures fault { IfErr result (λ fault. fault ≡ PageFault.Failed) }
        ensures keeps { H.tells → Keeps (H.disk host.old) (H.disk host.new) }
        ensures say_faults { H.say_faults host.new ≡ H.say_faults host.old }
    {
        self.save(host)?;
        Ok(Reply::OfflineNow)
    }
}

impl Database {
    // Makes a savepoint of the rows as they are.
    fn save<H: Host>(&mut self, host: &mut H) -> Result<(), PageFault>
        requires sound { IsSoundDatabase H.tells self.old (H.disk host.old) }
        requires low { greatest_number self.old ≤ 2 ^ 62 - 2 ^ 40 }
        ensures sound { OnOk result (IsSoundDatabase H.tells self.new (H.disk host.new)) }
        ensures numbers { OnOk result (greatest_number self.new ≤ greatest_number self.old + 2) }
        ensures only { IsSavedOnly self.old self.new }
        ensures leaves { H.tells → (w : World) → Serves H.tells self.old (H.disk host.old) w
            → SaveLeaves (H.disk host.old) (H.disk host.new) w
            (Serves H.tells self.new (H.disk host.new)) result }
        ensures cause { HasCause (H.faults host.old) (H.faults host.new) result }
        ensures fault { IfErr result (λ fault. fault ≡ PageFault.Failed) }
        ensures keeps { H.tells → Keeps (H.disk host.old) (H.disk host.new) }
        ensures say_faults { H.say_faults host.new ≡ H.say_faults host.old }
    {
        // Laws that the promise stands on.
        what_is_served::<H>();
        a_fresh_record_has_the_rows::<H>();
        self.area.savepoint(host)
    }

    // Makes a savepoint, and gives up all transactions.
    fn close_sessions<H: Host>(&mut self, alloc: Global, host: &mut H) -> Result<Reply, PageFault>
        requires online { self.old.access ≡ Online }
        requires sound { IsSoundDatabase H.tells self.old (H.disk host.old) }
        requires low { greatest_number self.old ≤ 2 ^ 62 - 2 ^ 40 }
        ensures sound { OnOk result (IsSoundDatabase H.tells self.new (H.disk host.new)) }
        ensures numbers { OnOk result (greatest_number self.new ≤ greatest_number self.old + 2) }
        ensures does { H.tells → (ws : List World)
            → FitsOpen H.tells self.old (H.disk host.old) ws
            → LineDoes H.tells (H.disk host.old) (H.disk host.new) ws DbAdmin plain
            self.new result }
        ensures done { IfOk result (λ reply. reply ≡ Reply.AdminAt self.old.area.ring.last_commit) }
        ensures cause { HasCause (H.faults host.old) (H.faults host.new) result }
        ensures fault { IfErr result (λ fault. fault ≡ PageFault.Failed) }
        ensures keeps { H.tells → Keeps (H.disk host.old) (H.disk host.new) }
        ensures say_faults { H.say_faults host.new ≡ H.say_faults host.old }
    {
        what_is_served::<H>();
        self.save(host)?;
        self.dismiss_sessions(alloc, host);
        Ok(Reply::AdminAt(self.area.ring.last_commit))
    }

    // Gives up all transactions, and lets no session in.
    fn dismiss_sessions<H: Host>(&mut self, alloc: Global, host: &H)
        requires size { 0 < self.old.area.ring.size }
        ensures area { self.new.area ≡ self.old.area }
        ensures access { self.new.access ≡ Admin }
        ensures blocks { (known_costs self.new.space).blocks
            ≡ (known_costs self.old.space).blocks }
        ensures serves { (w : World) → w.ring ≡ self.old.area.ring.size
            → Serves H.tells self.old (H.disk host.now) w
            → Serves H.tells self.new (H.disk host.now) (stopped state.Admin w) }
    {
        let _host = host;
        // Laws that the promise stands on.
        what_is_loaded_is_known();
        a_world_without_sessions_is_counted();
        self.transactions = Transactions::new(alloc, most_bytes(self.area.ring.size));
        forget_changes(&mut self.space);
        self.access = Access::Admin;
    }
}
