//! A commit of a group, with a savepoint in front where the log needs one.
ghost use Rattle.std.specs.Prelude.{◌≡◌, ℕ, ◌+◌, ◌-◌, ◌≤◌, ◌<◌, ◌^◌, length, true, false, Ok, Err, OnOk};
ghost use Rattle.mdb_model.specs.Causes.{Rose};
ghost use Rattle.mdb_model.specs.History.{tables_of};
ghost use Rattle.mdb_model.specs.Space.{has_room};
ghost use Rattle.mdb_model.specs.Worlds.{World};
ghost use Rattle.mdb_model.specs.declared.change.Commit.{Commit};
ghost use Rattle.mdb_host.specs.Disk.{Disk, Keeps};
ghost use Rattle.mdb_bytes.specs.Fields.{Spells};
ghost use Rattle.mdb_bytes.specs.Groups.{group_format};
ghost use Rattle.page_store.specs.SavingStays.{numbers_left};
ghost use Rattle.page_store.specs.WholeSavepoint.{IsSameArea};
ghost use Rattle.redo_ring.specs.Ring.{HasGroup};
ghost use Rattle.live_area.specs.Serving.{IsSoundArea, ServesWorld, CanTakeCommit};
ghost use Rattle.open_database.specs.Groups.{IsGroupTaken, GroupAnswer, GroupLeaves};

use live_area::{CommitFault, LiveArea};
use mdb_bytes::GroupBuf;
use mdb_host::Host;
use mdb_model::fault::PageFault;

/// Appends the group of a commit to the log and sets its changes on the rows. Where the log that a
/// restart reads leaves no room for it, a savepoint makes room first. False where the log that is
/// not saved leaves none, and then nothing was done.
pub(crate) fn commit_group<H: Host>(
    area: &mut LiveArea,
    host: &mut H,
    group: &GroupBuf,
) -> Result<bool, PageFault>
    requires sound { IsSoundArea H.tells area.old.in_force.slots area.old.in_force.record
        area.old.store area.old.ring (H.disk host.old) }
    requires low { area.old.ring.end_position + length group.now < 2 ^ 62 }
    requires few { area.old.ring.last_commit + 1 < 2 ^ 62 }
    requires due { HasGroup area.old.ring.name (area.old.ring.last_commit + 1) group.now }
    requires numbers { length group.now
        < numbers_left area.old.in_force.record area.old.store }
    ensures sound { OnOk result (IsSoundArea H.tells area.new.in_force.slots
        area.new.in_force.record area.new.store area.new.ring (H.disk host.new)) }
    ensures answer { GroupAnswer area.old.ring.size
        (area.old.ring.end_position - area.old.ring.saved_position) (length group.now) result }
    ensures refused { result ≡ Ok false → (area.new ≡ area.old) × (host.new ≡ host.old) }
    ensures taken { result ≡ Ok true → IsGroupTaken area.old.ring area.new.ring
        (length group.now) }
    ensures leaves { H.tells → (w : World) (c : Commit)
        → Spells group_format (record {
          name = area.old.ring.name;
          number = area.old.ring.last_commit + 1;
          changes = c.changes;
        }) group.now
        → ServesWorld H.tells area.old.in_force.slots area.old.in_force.record area.old.store
        area.old.ring (H.disk host.old) w
        → CanTakeCommit w c
        → has_room (tables_of w.history) (tables_of w.history) 0 0 w.blocks ≡ true
        → GroupLeaves (H.disk host.old) (H.disk host.new) w c
        (ServesWorld H.tells area.new.in_force.slots area.new.in_force.record area.new.store
        area.new.ring (H.disk host.new)) result }
    ensures numbers { numbers_left area.old.in_force.record area.old.store
        ≤ numbers_left area.new.in_force.record area.new.store + (length group.now + 1) }
    ensures area { IsSameArea area.old.store area.new.store }
    ensures cause { result ≡ Err PageFault.Failed
        → Rose (H.faults host.old) (H.faults host.new) }
    ensures later { H.faults host.old ≤ H.faults host.new }
    ensures keeps { H.tells → Keeps (H.disk host.old) (H.disk host.new) }
    ensures say_faults { H.say_faults host.new ≡ H.say_faults host.old }
{
    match area.commit(host, group) {
        Ok(()) => Ok(true),
        Err(CommitFault::Full) => Ok(false),
        Err(CommitFault::Pinned) => {
            area.savepoint(host)?;
            commit_once(area, host, group)
        }
        Err(CommitFault::Failed) => Err(PageFault::Failed),
        Err(CommitFault::Damaged(damage)) => Err(PageFault::Damaged(damage)),
    }
}

// Appends the group and sets its changes, where there is room for it in the log.
fn commit_once<H: Host>(
    area: &mut LiveArea,
    host: &mut H,
    group: &GroupBuf,
) -> Result<bool, PageFault>
    requires sound { IsSoundArea H.tells area.old.in_force.slots area.old.in_force.record
        area.old.store area.old.ring (H.disk host.old) }
    requires low { area.old.ring.end_position + length group.now < 2 ^ 62 }
    requires few { area.old.ring.last_commit + 1 < 2 ^ 62 }
    requires due { HasGroup area.old.ring.name (area.old.ring.last_commit + 1) group.now }
    requires numbers { length group.now
        ≤ numbers_left area.old.in_force.record area.old.store }
    requires unsaved { (area.old.ring.end_position - area.old.ring.saved_position)
        + length group.now + 1 ≤ area.old.ring.size }
    requires needed { (area.old.ring.end_position - area.old.ring.redo_position)
        + length group.now + 1 ≤ area.old.ring.size }
    ensures sound { OnOk result (IsSoundArea H.tells area.new.in_force.slots
        area.new.in_force.record area.new.store area.new.ring (H.disk host.new)) }
    ensures sure { result ≡ Ok false → ⊥ }
    ensures taken { result ≡ Ok true → IsGroupTaken area.old.ring area.new.ring
        (length group.now) }
    ensures leaves { H.tells → (w : World) (c : Commit)
        → Spells group_format (record {
          name = area.old.ring.name;
          number = area.old.ring.last_commit + 1;
          changes = c.changes;
        }) group.now
        → ServesWorld H.tells area.old.in_force.slots area.old.in_force.record area.old.store
        area.old.ring (H.disk host.old) w
        → CanTakeCommit w c
        → GroupLeaves (H.disk host.old) (H.disk host.new) w c
        (ServesWorld H.tells area.new.in_force.slots area.new.in_force.record area.new.store
        area.new.ring (H.disk host.new)) result }
    ensures numbers { numbers_left area.old.in_force.record area.old.store
        ≤ numbers_left area.new.in_force.record area.new.store + length group.now }
    ensures area { IsSameArea area.old.store area.new.store }
    ensures cause { result ≡ Err PageFault.Failed
        → Rose (H.faults host.old) (H.faults host.new) }
    ensures later { H.faults host.old ≤ H.faults host.new }
    ensures keeps { H.tells → Keeps (H.disk host.old) (H.disk host.new) }
    ensures say_faults { H.say_faults host.new ≡ H.say_faults host.old }
{
    match area.commit(host, group) {
        Ok(()) => Ok(true),
        Err(CommitFault::Full) | Err(CommitFault::Pinned) => Ok(false),
        Err(CommitFault::Failed) => Err(PageFault::Failed),
        Err(CommitFault::Damaged(damage)) => Err(PageFault::Damaged(damage)),
    }
}
