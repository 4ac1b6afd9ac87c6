//! Setting all commits that the log has left on the rows of a store.
ghost use Rattle.std.specs.Prelude.{◌≡◌, ℕ, ◌+◌, ◌-◌, ◌≤◌, List, length, Err, OnOk, IfErr};
ghost use Rattle.mdb_model.specs.Causes.{Rose};
ghost use Rattle.mdb_model.specs.declared.fault.Device.TheVariants.{Log};
ghost use Rattle.mdb_model.specs.declared.fault.PageFault.TheVariants.{Failed};
ghost use Rattle.mdb_model.specs.Tables.{with_commits};
ghost use Rattle.mdb_host.specs.Disk.{Keeps};
ghost use Rattle.page_store.specs.Opens.{own_pages};
ghost use Rattle.page_store.specs.SavingStays.{numbers_left};
ghost use Rattle.page_store.specs.Store.{block_count};
ghost use Rattle.page_store.specs.WholeSavepoint.{CanSave, IsSameArea};
ghost use Rattle.redo_ring.specs.Reading.{IsReader};
ghost use Rattle.store_rows.specs.StoredRows.{stored_rows, HasRows};
ghost use Rattle.standing.specs.Looks.{look};
ghost use Rattle.kept_worlds.specs.InService.{HasRoomToSet};
ghost use Rattle.page_ground.specs.LogKnown.{left_in, IsLogKnown};
ghost use Rattle.page_ground.specs.Aims.{rows_shown, StandsForWorld, KeepsWorlds};
ghost use Rattle.page_ground.specs.SetGroups.{HasTheseRows, RedoesAll, set_at};

use crate::ground::PageGround;
use crate::set_point::SetPoint;
use mdb_bytes::GroupBuf;
use mdb_host::Host;
use mdb_model::fault::PageFault;
use page_store::{PageStore, RecordInForce};
use redo_ring::RingReader;
use restart::redo;

/// Sets all commits from the reader's place on, and answers the number of the last one, none where
/// there is none. All before that place are set already. `group` is the room for one group.
/// Savepoints come in the middle where room is short.
pub fn redo_log<'a, H: Host>(
    store: &'a mut PageStore,
    host: &'a mut H,
    in_force: &'a mut RecordInForce,
    reader: RingReader,
    group: &mut GroupBuf,
) -> Result<Option<u64>, PageFault>
    requires order { IsReader reader }
    requires ready { CanSave H.tells in_force.old.slots in_force.old.record store.old
        (H.disk host.old) }
    requires numbers { (reader.start + reader.size) - reader.position
        ≤ numbers_left in_force.old.record store.old }
    ensures ready { OnOk result (CanSave H.tells in_force.new.slots in_force.new.record store.new
        (H.disk host.new)) }
    ensures numbers { numbers_left in_force.old.record store.old
        ≤ numbers_left in_force.new.record store.new
        + ((reader.start + reader.size) - reader.position) }
    ensures rows { HasRows H.tells store.old (H.disk host.old).seen
        → IsLogKnown H.tells reader (H.disk host.old).seen
        → OnOk result (HasTheseRows H.tells store.new (H.disk host.new).seen
        (with_commits (left_in reader (H.disk host.old).seen)
        (stored_rows store.old (H.disk host.old).seen))) }
    ensures kept { HasRows H.tells store.old (H.disk host.old).seen
        → IsLogKnown H.tells reader (H.disk host.old).seen
        → StandsForWorld H.tells in_force.old.slots in_force.old.record reader (set_at reader)
        store.old (H.disk host.old)
        → with_commits (left_in reader (H.disk host.old).seen)
        (stored_rows store.old (H.disk host.old).seen) ≡ rows_shown (look (H.disk host.old).seen)
        → HasRoomToSet (block_count store.old) (left_in reader (H.disk host.old).seen)
        (stored_rows store.old (H.disk host.old).seen)
        → KeepsWorlds (H.disk host.old) (H.disk host.new)
        × OnOk result (RedoesAll H.tells in_force.new.slots in_force.new.record reader store.new
        (H.disk host.old) (H.disk host.new)) }
    ensures cause { result ≡ Err Failed → Rose (H.faults host.old) (H.faults host.new) }
    ensures later { H.faults host.old ≤ H.faults host.new }
    ensures whole { HasRows H.tells store.old (H.disk host.old).seen
        → IsLogKnown H.tells reader (H.disk host.old).seen
        → HasRoomToSet (block_count store.old) (left_in reader (H.disk host.old).seen)
        (stored_rows store.old (H.disk host.old).seen)
        → store.old.maps.conv ≡ own_pages (block_count store.old)
        → IfErr result (λ fault. fault ≡ Failed) }
    ensures area { IsSameArea store.old store.new }
    ensures log { H.tells → (H.disk host.new).seen Log ≡ (H.disk host.old).seen Log }
    ensures keeps { H.tells → Keeps (H.disk host.old) (H.disk host.new) }
    ensures say_faults { H.say_faults host.new ≡ H.say_faults host.old }
{
    let set = SetPoint {
        commit: reader.number,
        position: reader.position,
    };
    let mut ground = PageGround {
        store,
        host,
        in_force,
        reader,
        set,
    };
    redo(&mut ground, group, None)
}
