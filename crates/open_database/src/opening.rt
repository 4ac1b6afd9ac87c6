//! Opening a database by its records.
ghost use Rattle.std.specs.Prelude.{◌≡◌, ℕ, ◌+◌, ◌≤◌, ◌<◌, ◌^◌, get_or, sum, IfOk};
ghost use Rattle.mdb_model.specs.Causes.{Rose};
ghost use Rattle.mdb_model.specs.Images.{Image};
ghost use Rattle.mdb_model.specs.Worlds.{World, off};
ghost use Rattle.mdb_model.specs.declared.fault.OpenFault.TheVariants.{Failed};
ghost use Rattle.mdb_host.specs.Disk.{Disk, Keeps};
ghost use Rattle.mdb_bytes.specs.Rings.{HasRing, ring_size};
ghost use Rattle.gate_slots.specs.declared.body.SlotBody.TheVariants.{Restart};
ghost use Rattle.gate_slots.specs.Slots.{HasBody, IsReady};
ghost use Rattle.volume_disk.specs.Blocks.{IsArea, IsDurable};
ghost use Rattle.savepoint.specs.Stands.{restart_place};
ghost use Rattle.redo_ring.specs.Opening.{IsStart};
ghost use Rattle.live_area.specs.Awaiting.{IsFound};
ghost use Rattle.open_database.specs.Opened.{OpenDoes, opened_world};
ghost use Rattle.open_database.specs.Serving.{IsSoundDatabase, Serves, greatest_number};

use crate::database::{Access, Database};
use crate::sizes::{load_costs, most_bytes};
use known_needs::what_is_loaded_is_known;
use live_area::{LiveArea, a_fresh_record_has_the_rows, calls_keep_serving, what_is_served};
use mdb_bytes::GroupBuf;
use mdb_host::Host;
use mdb_model::fault::{OpenFault, PageFault};
use page_store::RecordInForce;
use redo_ring::LogStart;
use space_lines::a_world_without_sessions_is_counted;
use space_rule::Space;
use std::alloc::Global;
use transactions::Transactions;

impl Database {
    /// Opens a database by its records: its rows are those of the record's map with the commits of
    /// the log from `start` on, and a savepoint has them. `blocks` are those of the data area. All
    /// devices were synced before. Memory is taken before the log is set.
    pub fn open<H: Host>(
        alloc: Global,
        host: &mut H,
        in_force: RecordInForce,
        start: &LogStart,
        blocks: u32,
        access: Access,
    ) -> Result<Database, OpenFault>
        requires body { HasBody restart_place in_force.slots (Restart in_force.record) }
        requires some { 0 < sum in_force.record.volumes.items }
        requires blocks { blocks ≡ sum in_force.record.volumes.items }
        requires bound { sum in_force.record.volumes.items ≤ 65536 }
        requires big { 2 ≤ get_or in_force.record.volumes.items 0 0 }
        requires number { in_force.record.savepoint < 2 ^ 61 }
        requires slot { in_force.record.slot < 2 ^ 61 }
        requires start { IsStart start.now }
        requires low { start.now.position < 2 ^ 61 }
        requires few { start.now.commit < 2 ^ 61 }
        requires birth { start.now.name.birth < 2 ^ 61 }
        requires generation { start.now.name.generation < 2 ^ 61 }
        requires position { start.now.position ≡ in_force.record.position }
        requires commit { start.now.commit ≡ in_force.record.commit }
        requires ring { H.tells → HasRing (ring_size start.now.pages) (H.disk host.old).seen }
        requires there { H.tells → IsArea in_force.record.volumes.items (H.disk host.old).seen }
        requires durable { H.tells → IsDurable in_force.record.volumes.items (H.disk host.old) }
        requires ready { H.tells → (image : Image)
            → (H.disk host.old).may_leave (H.disk host.old).now image
            → IsReady in_force.slots (Restart in_force.record) image }
        ensures sound { IfOk result (λ database. IsSoundDatabase H.tells database
            (H.disk host.new)) }
        ensures numbers { IfOk result (λ database. greatest_number database ≤ 2 ^ 61 + 2 ^ 35) }
        ensures access { IfOk result (λ database. database.access ≡ access) }
        ensures opens { H.tells → (w : World) → off w ≡ w
            → IsFound in_force.record start.now (H.disk host.old) w
            → OpenDoes (H.disk host.old) (H.disk host.new) w
            (λ database. Serves H.tells database (H.disk host.new) (opened_world access w))
            result }
        ensures cause { result ≡ Err Failed → Rose (H.faults host.old) (H.faults host.new) }
        ensures later { H.faults host.old ≤ H.faults host.new }
        ensures keeps { H.tells → Keeps (H.disk host.old) (H.disk host.new) }
        ensures say_faults { H.say_faults host.new ≡ H.say_faults host.old }
    {
        // Laws that the promise stands on.
        what_is_served::<H>();
        a_fresh_record_has_the_rows::<H>();
        calls_keep_serving::<H>();
        what_is_loaded_is_known();
        a_world_without_sessions_is_counted();
        let Ok(mut group) = GroupBuf::new(alloc) else {
            return Err(OpenFault::Memory);
        };
        let mut space = Space::new(alloc, blocks);
        let mut area = LiveArea::open(alloc, host, in_force, start, &mut group)?;
        match load_costs(&mut space, &mut area.store, host) {
            Ok(()) => {
                let transactions = Transactions::new(alloc, most_bytes(area.ring.size));
                Ok(Database {
                    access,
                    area,
                    space,
                    transactions,
                    group,
                })
            }
            Err(PageFault::Failed) => Err(OpenFault::Failed),
            Err(PageFault::Damaged(damage)) => Err(OpenFault::Damaged(damage)),
        }
    }
}
