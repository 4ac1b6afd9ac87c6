//! The end of a restart: the commits of the log are set, and a savepoint is made.
ghost use Rattle.std.specs.Prelude.{◌≡◌, ℕ, ◌+◌, ◌≤◌, ◌<◌, ◌^◌, Err, OnOk};
ghost use Rattle.mdb_model.specs.Causes.{Rose};
ghost use Rattle.mdb_model.specs.Worlds.{World};
ghost use Rattle.mdb_model.specs.declared.fault.Device.TheVariants.{Log};
ghost use Rattle.mdb_model.specs.declared.fault.PageFault.TheVariants.{Failed};
ghost use Rattle.mdb_host.specs.Disk.{Disk, Keeps};
ghost use Rattle.mdb_bytes.specs.Rings.{IsRingSize};
ghost use Rattle.page_store.specs.SavingStays.{numbers_left};
ghost use Rattle.page_store.specs.WholeSavepoint.{CanSave, IsSameArea};
ghost use Rattle.live_area.specs.Serving.{IsSoundArea, ServesWorld, SavepointLeaves, read_from};
ghost use Rattle.live_area.specs.Awaiting.{AwaitsRedo, IsRedone, reader_from};

use crate::area::LiveArea;
use mdb_bytes::GroupBuf;
use mdb_host::Host;
use mdb_model::fault::PageFault;
use page_ground::redo_log;

impl LiveArea {
    /// Sets the commits of the log after the record on the rows, and makes a savepoint with all of
    /// them. `group` is the room for one group. After a fault nothing can be said of the rows, and
    /// the next restart begins again: the caller stays offline.
    pub fn catch_up<H: Host>(&mut self, host: &mut H, group: &mut GroupBuf) -> Result<(), PageFault>
        requires sound { IsSoundArea H.tells self.old.in_force.slots self.old.in_force.record
            self.old.store self.old.ring (H.disk host.old) }
        requires low { self.old.in_force.record.position < 2 ^ 62 }
        requires count { self.old.in_force.record.commit
            < 2 ^ 61 + self.old.in_force.record.position }
        requires numbers { self.old.ring.size
            < numbers_left self.old.in_force.record self.old.store }
        ensures sound { OnOk result (IsSoundArea H.tells self.new.in_force.slots
            self.new.in_force.record self.new.store self.new.ring (H.disk host.new)) }
        ensures numbers { numbers_left self.old.in_force.record self.old.store
            ≤ numbers_left self.new.in_force.record self.new.store + (self.old.ring.size + 1) }
        ensures leaves { H.tells → (w : World)
            → AwaitsRedo H.tells self.old.in_force.slots self.old.in_force.record self.old.store
            self.old.ring (H.disk host.old) w
            → self.old.ring.end_position < 2 ^ 62
            → self.old.ring.last_commit < 2 ^ 62
            → SavepointLeaves (H.disk host.old) (H.disk host.new) w
            (ServesWorld H.tells self.new.in_force.slots self.new.in_force.record self.new.store
            self.new.ring (H.disk host.new)) result }
        ensures area { IsSameArea self.old.store self.new.store }
        ensures log { (self.new.ring.end_position ≡ self.old.ring.end_position)
            × (self.new.ring.last_commit ≡ self.old.ring.last_commit)
            × (self.new.ring.size ≡ self.old.ring.size) }
        ensures same_log { (self.new.ring.name ≡ self.old.ring.name)
            × (self.new.ring.saved_position ≡ self.old.ring.saved_position)
            × (self.new.ring.saved_commit ≡ self.old.ring.saved_commit) }
        ensures fresh { OnOk result (self.new.ring.redo_position ≡ self.new.ring.end_position) }
        ensures cause { result ≡ Err Failed → Rose (H.faults host.old) (H.faults host.new) }
        ensures later { H.faults host.old ≤ H.faults host.new }
        ensures keeps { H.tells → Keeps (H.disk host.old) (H.disk host.new) }
        ensures say_faults { H.say_faults host.new ≡ H.say_faults host.old }
    {
        self.redo(host, group)?;
        self.savepoint(host)
    }

    // Sets the commits of the log after the record.
    fn redo<H: Host>(
        &mut self,
        host: &mut H,
        group: &mut GroupBuf,
    ) -> Result<Option<u64>, PageFault>
        requires can_save { CanSave H.tells self.old.in_force.slots self.old.in_force.record
            self.old.store (H.disk host.old) }
        requires size { IsRingSize self.old.ring.size }
        requires low { self.old.in_force.record.position < 2 ^ 62 }
        requires count { self.old.in_force.record.commit
            < 2 ^ 61 + self.old.in_force.record.position }
        requires numbers { self.old.ring.size
            ≤ numbers_left self.old.in_force.record self.old.store }
        ensures can_save { OnOk result (CanSave H.tells self.new.in_force.slots
            self.new.in_force.record self.new.store (H.disk host.new)) }
        ensures numbers { numbers_left self.old.in_force.record self.old.store
            ≤ numbers_left self.new.in_force.record self.new.store + self.old.ring.size }
        ensures ring { self.new.ring ≡ read_from self.old.ring self.new.in_force.record }
        ensures redone { IsRedone H.tells (reader_from self.old.ring self.old.in_force.record)
            self.old.store self.new.store self.old.in_force self.new.in_force (H.disk host.old)
            (H.disk host.new) result }
        ensures area { IsSameArea self.old.store self.new.store }
        ensures log { H.tells → (H.disk host.new).seen Log ≡ (H.disk host.old).seen Log }
        ensures cause { result ≡ Err Failed → Rose (H.faults host.old) (H.faults host.new) }
        ensures later { H.faults host.old ≤ H.faults host.new }
        ensures keeps { H.tells → Keeps (H.disk host.old) (H.disk host.new) }
        ensures say_faults { H.say_faults host.new ≡ H.say_faults host.old }
    {
        let position = self.in_force.record.position;
        let commit = self.in_force.record.commit;
        let reader = self.ring.reader(position, commit);
        let result = redo_log(&mut self.store, host, &mut self.in_force, reader, group);
        let end = self.ring.end_position;
        self.ring.redo_position = self.in_force.record.position.min(end);
        result
    }
}
