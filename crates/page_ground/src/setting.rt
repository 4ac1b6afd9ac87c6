//! Setting one commit on the rows of a store.
ghost use Rattle.std.specs.Prelude.{◌≡◌, ℕ, ◌+◌, ◌≤◌, List, ◌∷◌, length, Err, OnOk, IfErr};
ghost use Rattle.mdb_model.specs.Causes.{Rose};
ghost use Rattle.mdb_model.specs.declared.change.Change.{Change};
ghost use Rattle.mdb_model.specs.declared.change.Commit.{Commit};
ghost use Rattle.mdb_model.specs.declared.fault.Device.TheVariants.{Log};
ghost use Rattle.mdb_model.specs.declared.fault.PageFault.TheVariants.{Failed};
ghost use Rattle.mdb_model.specs.declared.name.Name.{Name};
ghost use Rattle.mdb_model.specs.Tables.{with_changes};
ghost use Rattle.mdb_bytes.specs.Fields.{Spells};
ghost use Rattle.mdb_bytes.specs.Groups.{group_format};
ghost use Rattle.mdb_host.specs.Disk.{Keeps};
ghost use Rattle.page_store.specs.Opens.{own_pages};
ghost use Rattle.page_store.specs.SavingStays.{numbers_left};
ghost use Rattle.page_store.specs.Store.{block_count};
ghost use Rattle.page_store.specs.WholeSavepoint.{CanSave, IsSameArea};
ghost use Rattle.redo_ring.specs.Reading.{IsReader};
ghost use Rattle.restart.specs.Redone.{IsFirstUndone};
ghost use Rattle.store_rows.specs.StoredRows.{stored_rows, HasRows};
ghost use Rattle.standing.specs.Looks.{look};
ghost use Rattle.kept_worlds.specs.InService.{HasRoomToSet};
ghost use Rattle.page_ground.specs.LogKnown.{left_in, IsLogKnown};
ghost use Rattle.page_ground.specs.Aims.{rows_shown, undone_in, StandsForWorld, KeepsWorlds};
ghost use Rattle.page_ground.specs.SetGroups.{HasTheseRows, SetsAll};

use crate::ground::PageGround;
use crate::set_point::SetPoint;
use mdb_bytes::GroupBuf;
use mdb_host::Host;
use mdb_model::fault::PageFault;
use page_store::{PageStore, RecordInForce};
use redo_ring::RingReader;
use restart::set_commit;

/// Sets the commit whose group this is, the first one after `set`; the reader stands after its
/// group. A savepoint comes in the middle where room is short.
pub fn set_group<'a, H: Host>(
    store: &'a mut PageStore,
    host: &'a mut H,
    in_force: &'a mut RecordInForce,
    reader: RingReader,
    set: SetPoint,
    group: &GroupBuf,
) -> Result<(), PageFault>
    requires order { IsReader reader }
    requires ready { CanSave H.tells in_force.old.slots in_force.old.record store.old
        (H.disk host.old) }
    requires numbers { length group.now ≤ numbers_left in_force.old.record store.old }
    ensures ready { OnOk result (CanSave H.tells in_force.new.slots in_force.new.record store.new
        (H.disk host.new)) }
    ensures numbers { numbers_left in_force.old.record store.old
        ≤ numbers_left in_force.new.record store.new + length group.now }
    ensures rows { HasRows H.tells store.old (H.disk host.old).seen
        → IsLogKnown H.tells reader (H.disk host.old).seen
        → (name : Name) (number : ℕ) (changes : List Change)
        → Spells group_format (record { name = name; number = number; changes = changes }) group.now
        → OnOk result (HasTheseRows H.tells store.new (H.disk host.new).seen
        (with_changes changes (stored_rows store.old (H.disk host.old).seen))) }
    ensures kept { HasRows H.tells store.old (H.disk host.old).seen
        → IsLogKnown H.tells reader (H.disk host.old).seen
        → StandsForWorld H.tells in_force.old.slots in_force.old.record reader set store.old
        (H.disk host.old)
        → (next : IsFirstUndone (rows_shown (look (H.disk host.old).seen))
        (undone_in reader set (H.disk host.old).seen)
        (stored_rows store.old (H.disk host.old).seen) group.now)
        → next.rest ≡ left_in reader (H.disk host.old).seen
        → reader.number ≡ set.commit + 1
        → HasRoomToSet (block_count store.old) (undone_in reader set (H.disk host.old).seen)
        (stored_rows store.old (H.disk host.old).seen)
        → KeepsWorlds (H.disk host.old) (H.disk host.new)
        × OnOk result (SetsAll H.tells in_force.new.slots in_force.new.record reader reader.number
        store.new (H.disk host.old) (H.disk host.new)) }
    ensures cause { result ≡ Err Failed → Rose (H.faults host.old) (H.faults host.new) }
    ensures later { H.faults host.old ≤ H.faults host.new }
    ensures whole { HasRows H.tells store.old (H.disk host.old).seen
        → IsLogKnown H.tells reader (H.disk host.old).seen
        → (name : Name) (number : ℕ) (changes : List Change) (commits : List Commit)
        → Spells group_format (record { name = name; number = number; changes = changes }) group.now
        → HasRoomToSet (block_count store.old) (record { changes = changes } ∷ commits)
        (stored_rows store.old (H.disk host.old).seen)
        → store.old.maps.conv ≡ own_pages (block_count store.old)
        → IfErr result (λ fault. fault ≡ Failed) }
    ensures area { IsSameArea store.old store.new }
    ensures log { H.tells → (H.disk host.new).seen Log ≡ (H.disk host.old).seen Log }
    ensures keeps { H.tells → Keeps (H.disk host.old) (H.disk host.new) }
    ensures say_faults { H.say_faults host.new ≡ H.say_faults host.old }
{
    let number = reader.number;
    let mut ground = PageGround {
        store,
        host,
        in_force,
        reader,
        set,
    };
    set_commit(&mut ground, group, number)
}
