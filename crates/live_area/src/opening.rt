//! A restart on pages.
ghost use Rattle.std.specs.Prelude.{◌≡◌, ℕ, ◌+◌, ◌-◌, ◌≤◌, ◌<◌, ◌^◌, max, get_or, sum, Err, IfOk};
ghost use Rattle.mdb_model.specs.Causes.{Rose};
ghost use Rattle.mdb_model.specs.Images.{Image};
ghost use Rattle.mdb_model.specs.Worlds.{World};
ghost use Rattle.mdb_model.specs.declared.fault.OpenFault.TheVariants.{Failed};
ghost use Rattle.mdb_host.specs.Disk.{Disk, Keeps};
ghost use Rattle.mdb_bytes.specs.Rings.{HasRing, ring_size};
ghost use Rattle.gate_slots.specs.declared.body.SlotBody.TheVariants.{Restart};
ghost use Rattle.gate_slots.specs.Slots.{HasBody, IsReady};
ghost use Rattle.volume_disk.specs.Blocks.{IsArea, IsDurable};
ghost use Rattle.savepoint.specs.Stands.{restart_place};
ghost use Rattle.page_store.specs.SavingStays.{numbers_left};
ghost use Rattle.page_store.specs.Store.{block_count};
ghost use Rattle.redo_ring.specs.Opening.{IsStart};
ghost use Rattle.live_area.specs.Serving.{IsSoundArea, ServesWorld};
ghost use Rattle.live_area.specs.Awaiting.{IsFound, OpenLeaves};

use crate::area::LiveArea;
use mdb_bytes::GroupBuf;
use mdb_host::Host;
use mdb_model::fault::{OpenFault, PageFault};
use page_store::RecordInForce;
use redo_ring::LogStart;
use std::alloc::Global;

impl LiveArea {
    /// Opens a database by its records: its rows are those of the record's map with the commits of
    /// the log from `start` on, and a savepoint has them. All devices were synced before. `group`
    /// is the room for one group. After an error the next restart begins again.
    pub fn open<H: Host>(
        alloc: Global,
        host: &mut H,
        in_force: RecordInForce,
        start: &LogStart,
        group: &mut GroupBuf,
    ) -> Result<LiveArea, OpenFault>
        requires body { HasBody restart_place in_force.slots (Restart in_force.record) }
        requires some { 0 < sum in_force.record.volumes.items }
        requires bound { sum in_force.record.volumes.items ≤ 65536 }
        requires big { 2 ≤ get_or in_force.record.volumes.items 0 0 }
        requires number { in_force.record.savepoint < 2 ^ 61 }
        requires slot { in_force.record.slot < 2 ^ 61 }
        requires start { IsStart start.now }
        requires low { start.now.position < 2 ^ 61 }
        requires few { start.now.commit < 2 ^ 61 }
        requires position { start.now.position ≡ in_force.record.position }
        requires commit { start.now.commit ≡ in_force.record.commit }
        requires ring { H.tells → HasRing (ring_size start.now.pages) (H.disk host.old).seen }
        requires there { H.tells → IsArea in_force.record.volumes.items (H.disk host.old).seen }
        requires durable { H.tells → IsDurable in_force.record.volumes.items (H.disk host.old) }
        requires ready { H.tells → (image : Image)
            → (H.disk host.old).may_leave (H.disk host.old).now image
            → IsReady in_force.slots (Restart in_force.record) image }
        ensures sound { IfOk result (λ area. IsSoundArea H.tells area.in_force.slots
            area.in_force.record area.store area.ring (H.disk host.new)) }
        ensures blocks { IfOk result (λ area. block_count area.store
            ≡ sum in_force.record.volumes.items) }
        ensures log { IfOk result (λ area. (area.ring.name ≡ start.now.name)
            × (area.ring.size ≡ ring_size start.now.pages)
            × (area.ring.end_position < start.now.position + area.ring.size)
            × (area.ring.last_commit + start.now.position
            ≤ start.now.commit + area.ring.end_position)) }
        ensures numbers { IfOk result (λ area. (2 ^ 62 - 1)
            - max (in_force.record.savepoint + 1) in_force.record.slot
            ≤ numbers_left area.in_force.record area.store + (area.ring.size + 1)) }
        ensures fresh { IfOk result (λ area. area.ring.redo_position ≡ area.ring.end_position) }
        ensures opens { H.tells → (w : World)
            → IsFound in_force.record start.now (H.disk host.old) w
            → OpenLeaves (H.disk host.old) (H.disk host.new) w
            (λ area. ServesWorld H.tells area.in_force.slots area.in_force.record area.store
            area.ring (H.disk host.new) w) result }
        ensures cause { result ≡ Err Failed → Rose (H.faults host.old) (H.faults host.new) }
        ensures later { H.faults host.old ≤ H.faults host.new }
        ensures keeps { H.tells → Keeps (H.disk host.old) (H.disk host.new) }
        ensures say_faults { H.say_faults host.new ≡ H.say_faults host.old }
    {
        let mut area = LiveArea::read(alloc, host, in_force, start)?;
        match area.catch_up(host, group) {
            Ok(()) => Ok(area),
            Err(PageFault::Failed) => Err(OpenFault::Failed),
            Err(PageFault::Damaged(damage)) => Err(OpenFault::Damaged(damage)),
        }
    }
}
