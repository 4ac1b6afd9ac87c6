//! What a restart finds where what a read gives stands for a world. The functions do nothing: their
//! contracts are the laws.
ghost use Rattle.std.specs.Prelude.{◌≡◌, ◌≤◌, Some, sum};
ghost use Rattle.mdb_model.specs.declared.fault.Damage.{Damage};
ghost use Rattle.mdb_model.specs.Images.{Image};
ghost use Rattle.mdb_model.specs.Worlds.{World, Live};
ghost use Rattle.mdb_bytes.specs.declared.log_info.LogInfo.{LogInfo};
ghost use Rattle.mdb_bytes.specs.declared.restart_record.RestartRecord.{RestartRecord};
ghost use Rattle.free_blocks.specs.Free.{free_count};
ghost use Rattle.gate_slots.specs.declared.body.SlotBody.TheVariants.{Restart};
ghost use Rattle.gate_slots.specs.declared.slots.Slots.{Slots};
ghost use Rattle.gate_slots.specs.Slots.{in_force};
ghost use Rattle.volume_disk.specs.Blocks.{block_at};
ghost use Rattle.converter.specs.Loads.{Breaks};
ghost use Rattle.page_store.specs.Opens.{own_pages};
ghost use Rattle.page_store.specs.Store.{Store, spare_of};
ghost use Rattle.standing.specs.Standing.{data_slots};
ghost use Rattle.standing.specs.WholeStanding.{StandsWhole};
ghost use Rattle.opened_worlds.specs.Opened.{IsOpenedOn, StartsService};

use mdb_host::Host;
use page_store::opened_can_save;

/// Where an image stands for a live world, no rule on reading the map of its record is broken. So
/// `PageStore::open` on this record never calls it damaged.
pub fn a_standing_map_is_read()
    ensures { (seen : Image) (w : World) (r : RestartRecord) (damage : Damage)
        → StandsWhole seen w → w.area ≡ Live → in_force seen data_slots ≡ Some (Restart r)
        → Breaks r.volumes.items (own_pages (sum r.volumes.items)) (sum r.volumes.items) r.root
        (block_at r.volumes.items seen) damage
        → ⊥ }
{}

/// A store that was opened on an image that stands has room for the converter of a savepoint, and
/// beside it for 159 pages at least: a restart goes on where 64 are spare.
pub fn an_opened_store_can_save<H: Host>()
    ensures fits { (slots : Slots) (r : RestartRecord) (info : LogInfo) (s : Store) (d : H)
        (w : World) → IsOpenedOn H.tells slots r info s (H.disk d) w
        → s.maps.conv ≤ free_count s.free }
    ensures spare { (slots : Slots) (r : RestartRecord) (info : LogInfo) (s : Store) (d : H)
        (w : World) → IsOpenedOn H.tells slots r info s (H.disk d) w → 159 ≤ spare_of s }
{}

/// It is a database in service for the world, with the commits of the log after the record still to
/// be redone.
pub fn an_opened_store_starts_service<H: Host>()
    ensures { (slots : Slots) (r : RestartRecord) (info : LogInfo) (s : Store) (d : H)
        (w : World) → IsOpenedOn H.tells slots r info s (H.disk d) w
        → StartsService H.tells slots r info s (H.disk d) w }
{
    // A law that this one stands on.
    opened_can_save::<H>();
}
