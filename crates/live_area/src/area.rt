//! The data area and the log of an open database.
ghost use Rattle.std.specs.Prelude.{◌≡◌, ℕ, ◌+◌, ◌-◌, ◌≤◌, ◌<◌, ◌^◌, length, true, Err, OnOk, IfErr, min};
ghost use Rattle.mdb_model.specs.Causes.{Rose};
ghost use Rattle.mdb_model.specs.Space.{has_room};
ghost use Rattle.mdb_model.specs.History.{tables_of};
ghost use Rattle.mdb_model.specs.Worlds.{World};
ghost use Rattle.mdb_model.specs.declared.fault.Device.TheVariants.{Log};
ghost use Rattle.mdb_model.specs.declared.fault.PageFault.TheVariants.{Failed};
ghost use Rattle.mdb_model.specs.Causes.{HasCause};
ghost use Rattle.mdb_host.specs.Disk.{Disk, Keeps};
ghost use Rattle.page_store.specs.SavingStays.{numbers_left};
ghost use Rattle.page_store.specs.Store.{spare_of};
ghost use Rattle.page_store.specs.WholeSavepoint.{CanSave, spare_after, IsSameArea};
ghost use Rattle.mdb_model.specs.declared.change.Commit.{Commit};
ghost use Rattle.mdb_bytes.specs.Fields.{Spells};
ghost use Rattle.mdb_bytes.specs.Groups.{group_format};
ghost use Rattle.mdb_bytes.specs.Rings.{IsRingSize};
ghost use Rattle.redo_ring.specs.Ring.{HasGroup};
ghost use Rattle.live_area.specs.Serving.{IsSoundArea, ServesWorld, SavepointLeaves, CanTakeCommit, CommitAnswer, CommitLeaves, IsRefusal, read_from, reader_at_end, point_before, IsSet};

use crate::fault::CommitFault;
use mdb_bytes::GroupBuf;
use mdb_host::Host;
use mdb_model::fault::PageFault;
use page_ground::{SetPoint, set_group};
use page_store::{PageStore, RecordInForce};
use redo_ring::{Ring, RingFault};

/// The data area and the log of an open database.
#[derive(Drop)]
pub struct LiveArea {
    /// The rows, on pages.
    pub store: PageStore,
    /// The slots and the restart record of the last savepoint.
    pub in_force: RecordInForce,
    /// The log.
    pub ring: Ring,
}

// The greatest number that a record may have.
const LAST_NUMBER: u64 = (1 << 62) - 1;

impl LiveArea {
    /// Makes a savepoint of the rows as they are, with all commits. After a fault of a device no
    /// further one can be made: the caller goes offline.
    pub fn savepoint<H: Host>(&mut self, host: &mut H) -> Result<(), PageFault>
        requires sound { IsSoundArea H.tells self.old.in_force.slots self.old.in_force.record
            self.old.store self.old.ring (H.disk host.old) }
        requires numbers { 0 < numbers_left self.old.in_force.record self.old.store }
        ensures sound { OnOk result (IsSoundArea H.tells self.new.in_force.slots
            self.new.in_force.record self.new.store self.new.ring (H.disk host.new)) }
        ensures numbers { numbers_left self.old.in_force.record self.old.store
            ≤ numbers_left self.new.in_force.record self.new.store + 1 }
        ensures spare { OnOk result (spare_of self.new.store ≡ spare_after self.old.store) }
        ensures leaves { H.tells → (w : World)
            → ServesWorld H.tells self.old.in_force.slots self.old.in_force.record self.old.store
            self.old.ring (H.disk host.old) w
            → has_room (tables_of w.history) (tables_of w.history) 0 0 w.blocks ≡ true
            → self.old.ring.end_position < 2 ^ 62
            → self.old.ring.last_commit < 2 ^ 62
            → SavepointLeaves (H.disk host.old) (H.disk host.new) w
            (ServesWorld H.tells self.new.in_force.slots self.new.in_force.record self.new.store
            self.new.ring (H.disk host.new)) result }
        ensures area { IsSameArea self.old.store self.new.store }
        ensures log { (self.new.ring.end_position ≡ self.old.ring.end_position)
            × (self.new.ring.last_commit ≡ self.old.ring.last_commit)
            × (self.new.ring.size ≡ self.old.ring.size) }
        ensures same_log { (self.new.ring.name ≡ self.old.ring.name)
            × (self.new.ring.saved_position ≡ self.old.ring.saved_position)
            × (self.new.ring.saved_commit ≡ self.old.ring.saved_commit) }
        ensures fresh { OnOk result (self.new.ring.redo_position ≡ self.new.ring.end_position) }
        ensures cause { HasCause (H.faults host.old) (H.faults host.new) result }
        ensures fault { IfErr result (λ fault. fault ≡ Failed) }
        ensures keeps { H.tells → Keeps (H.disk host.old) (H.disk host.new) }
        ensures say_faults { H.say_faults host.new ≡ H.say_faults host.old }
    {
        // Opens the invariant.
        let _before = self.store.blocks();
        let commit = self.ring.last_commit.min(LAST_NUMBER);
        let position = self.ring.end_position.min(LAST_NUMBER);
        self.in_force
            .savepoint(&mut self.store, host, commit, position)?;
        // Opens the invariant.
        let _after = self.store.blocks();
        self.ring.redo_position = self.ring.end_position;
        Ok(())
    }

    /// Appends the group of a commit to the log, and sets its changes on the rows. A savepoint
    /// comes in the middle where room is short. After a fault of a device the next restart finds
    /// whether the commit was made: the caller goes offline.
    pub fn commit<H: Host>(&mut self, host: &mut H, group: &GroupBuf) -> Result<(), CommitFault>
        requires sound { IsSoundArea H.tells self.old.in_force.slots self.old.in_force.record
            self.old.store self.old.ring (H.disk host.old) }
        requires low { self.old.ring.end_position + length group.now < 2 ^ 62 }
        requires few { self.old.ring.last_commit + 1 < 2 ^ 62 }
        requires due { HasGroup self.old.ring.name (self.old.ring.last_commit + 1) group.now }
        requires numbers { length group.now
            ≤ numbers_left self.old.in_force.record self.old.store }
        ensures sound { OnOk result (IsSoundArea H.tells self.new.in_force.slots
            self.new.in_force.record self.new.store self.new.ring (H.disk host.new)) }
        ensures answer { CommitAnswer self.old.ring.size
            (self.old.ring.end_position - self.old.ring.saved_position)
            (self.old.ring.end_position - self.old.ring.redo_position) (length group.now) result }
        ensures refused { IfErr result (λ fault. IsRefusal fault
            → (self.new ≡ self.old) × (host.new ≡ host.old)) }
        ensures leaves { H.tells → (w : World) (c : Commit)
            → Spells group_format (record {
              name = self.old.ring.name;
              number = self.old.ring.last_commit + 1;
              changes = c.changes;
            }) group.now
            → ServesWorld H.tells self.old.in_force.slots self.old.in_force.record self.old.store
            self.old.ring (H.disk host.old) w
            → CanTakeCommit w c
            → CommitLeaves (H.disk host.old) (H.disk host.new) w c
            (ServesWorld H.tells self.new.in_force.slots self.new.in_force.record self.new.store
            self.new.ring (H.disk host.new)) result }
        ensures numbers { numbers_left self.old.in_force.record self.old.store
            ≤ numbers_left self.new.in_force.record self.new.store + length group.now }
        ensures area { IsSameArea self.old.store self.new.store }
        ensures log { OnOk result
            ((self.new.ring.end_position ≡ self.old.ring.end_position + length group.now)
            × (self.new.ring.last_commit ≡ self.old.ring.last_commit + 1)
            × (self.new.ring.size ≡ self.old.ring.size)) }
        ensures same_log { (self.new.ring.name ≡ self.old.ring.name)
            × (self.new.ring.saved_position ≡ self.old.ring.saved_position)
            × (self.new.ring.saved_commit ≡ self.old.ring.saved_commit) }
        ensures cause { result ≡ Err CommitFault.Failed
            → Rose (H.faults host.old) (H.faults host.new) }
        ensures later { H.faults host.old ≤ H.faults host.new }
        ensures keeps { H.tells → Keeps (H.disk host.old) (H.disk host.new) }
        ensures say_faults { H.say_faults host.new ≡ H.say_faults host.old }
    {
        match self.ring.append(host, group) {
            Ok(()) => match self.set_last(host, group) {
                Ok(()) => Ok(()),
                Err(PageFault::Failed) => Err(CommitFault::Failed),
                Err(PageFault::Damaged(damage)) => Err(CommitFault::Damaged(damage)),
            },
            Err(RingFault::Full { .. }) => Err(CommitFault::Full),
            Err(RingFault::Pinned) => Err(CommitFault::Pinned),
            Err(RingFault::Failed) => Err(CommitFault::Failed),
        }
    }

    // Sets the commit whose group was appended last.
    fn set_last<H: Host>(&mut self, host: &mut H, group: &GroupBuf) -> Result<(), PageFault>
        requires can_save { CanSave H.tells self.old.in_force.slots self.old.in_force.record
            self.old.store (H.disk host.old) }
        requires size { IsRingSize self.old.ring.size }
        requires low { self.old.ring.end_position < 2 ^ 62 }
        requires count { self.old.ring.last_commit < 2 ^ 61 + self.old.ring.end_position }
        requires some { 0 < self.old.ring.last_commit }
        requires long { length group.now ≤ self.old.ring.end_position }
        requires numbers { length group.now
            ≤ numbers_left self.old.in_force.record self.old.store }
        ensures can_save { OnOk result (CanSave H.tells self.new.in_force.slots
            self.new.in_force.record self.new.store (H.disk host.new)) }
        ensures numbers { numbers_left self.old.in_force.record self.old.store
            ≤ numbers_left self.new.in_force.record self.new.store + length group.now }
        ensures ring { self.new.ring ≡ read_from self.old.ring self.new.in_force.record }
        ensures sets { IsSet H.tells (reader_at_end self.old.ring)
            (point_before self.old.ring (length group.now)) self.old.store self.new.store
            self.old.in_force self.new.in_force group.now (H.disk host.old) (H.disk host.new)
            result }
        ensures area { IsSameArea self.old.store self.new.store }
        ensures log { H.tells → (H.disk host.new).seen Log ≡ (H.disk host.old).seen Log }
        ensures cause { result ≡ Err Failed → Rose (H.faults host.old) (H.faults host.new) }
        ensures later { H.faults host.old ≤ H.faults host.new }
        ensures keeps { H.tells → Keeps (H.disk host.old) (H.disk host.new) }
        ensures say_faults { H.say_faults host.new ≡ H.say_faults host.old }
    {
        let end = self.ring.end_position;
        let number = self.ring.last_commit;
        let reader = self.ring.reader(end, number);
        let set = SetPoint {
            commit: number - 1,
            position: end - group.len() as u64,
        };
        let result = set_group(
            &mut self.store,
            host,
            &mut self.in_force,
            reader,
            set,
            group,
        );
        self.ring.redo_position = self.in_force.record.position.min(end);
        result
    }
}
