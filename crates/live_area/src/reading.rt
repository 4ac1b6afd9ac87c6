//! The beginning of a restart: the map of the record in force and the log are opened.
ghost use Rattle.std.specs.Prelude.{◌≡◌, ◌⊎◌, ℕ, ◌+◌, ◌*◌, ◌≤◌, ◌<◌, ◌^◌, get_or, sum, Err, IfOk, IfErr};
ghost use Rattle.mdb_model.specs.Causes.{Rose};
ghost use Rattle.mdb_model.specs.Images.{Image};
ghost use Rattle.mdb_model.specs.Worlds.{World};
ghost use Rattle.mdb_model.specs.declared.fault.OpenFault.TheVariants.{Failed, Memory};
ghost use Rattle.mdb_host.specs.Disk.{Disk};
ghost use Rattle.mdb_host.specs.Reads.{ReadsOnly};
ghost use Rattle.mdb_bytes.specs.Rings.{HasRing, ring_size};
ghost use Rattle.gate_slots.specs.declared.body.SlotBody.TheVariants.{Restart};
ghost use Rattle.gate_slots.specs.Slots.{HasBody, IsReady};
ghost use Rattle.volume_disk.specs.Blocks.{IsArea, IsDurable};
ghost use Rattle.savepoint.specs.Stands.{restart_place};
ghost use Rattle.page_store.specs.Store.{block_count};
ghost use Rattle.redo_ring.specs.Opening.{IsStart, IsRingOpened};
ghost use Rattle.live_area.specs.Serving.{IsSoundArea};
ghost use Rattle.live_area.specs.Awaiting.{AwaitsRedo, IsFound};

use crate::area::LiveArea;
use mdb_host::Host;
use mdb_model::fault::{Damage, Device, OpenFault, Rule};
use opened_worlds::{an_opened_store_can_save, an_opened_store_starts_service};
use page_store::{PageStore, RecordInForce, opened_can_save};
use redo_ring::{LogStart, Ring};
use std::alloc::Global;

impl LiveArea {
    /// Opens the map of the record in force and the log from `start` on. It takes all memory that
    /// the rows and the log will use, and writes nothing. All devices were synced before.
    pub fn read<H: Host>(
        alloc: Global,
        host: &mut H,
        in_force: RecordInForce,
        start: &LogStart,
    ) -> Result<LiveArea, OpenFault>
        requires body { HasBody restart_place in_force.slots (Restart in_force.record) }
        requires some { 0 < sum in_force.record.volumes.items }
        requires bound { sum in_force.record.volumes.items ≤ 65536 }
        requires big { 2 ≤ get_or in_force.record.volumes.items 0 0 }
        requires number { in_force.record.savepoint + 1 < 2 ^ 62 }
        requires start { IsStart start.now }
        requires ring { H.tells → HasRing (ring_size start.now.pages) (H.disk host.old).seen }
        requires there { H.tells → IsArea in_force.record.volumes.items (H.disk host.old).seen }
        requires durable { H.tells → IsDurable in_force.record.volumes.items (H.disk host.old) }
        requires ready { H.tells → (image : Image)
            → (H.disk host.old).may_leave (H.disk host.old).now image
            → IsReady in_force.slots (Restart in_force.record) image }
        ensures sound { IfOk result (λ area. IsSoundArea H.tells area.in_force.slots
            area.in_force.record area.store area.ring (H.disk host.new)) }
        ensures same { IfOk result (λ area. area.in_force ≡ in_force) }
        ensures opened { IfOk result (λ area. IsRingOpened start.now area.ring) }
        ensures blocks { IfOk result (λ area. block_count area.store
            ≡ sum in_force.record.volumes.items) }
        ensures awaits { H.tells → (w : World)
            → IsFound in_force.record start.now (H.disk host.old) w
            → IfOk result (λ area. AwaitsRedo H.tells area.in_force.slots area.in_force.record
            area.store area.ring (H.disk host.new) w) }
        ensures whole { H.tells → (w : World)
            → IsFound in_force.record start.now (H.disk host.old) w
            → IfErr result (λ fault. (fault ≡ Memory) ⊎ (fault ≡ Failed)) }
        ensures reads { ReadsOnly H.Host host.old host.new }
        ensures cause { result ≡ Err Failed → Rose (H.faults host.old) (H.faults host.new) }
    {
        // Laws that the promise stands on.
        opened_can_save::<H>();
        an_opened_store_can_save::<H>();
        an_opened_store_starts_service::<H>();
        let ring = Ring::open(alloc, host, start)?;
        let store = PageStore::open(alloc, host, &in_force.record)?;
        // Opens the invariant.
        let _blocks = store.blocks();
        if !store.savepoint_fits() {
            return Err(OpenFault::Damaged(Damage {
                device: Device::Data(1),
                page: 0,
                rule: Rule::Room,
            }));
        }
        Ok(LiveArea {
            store,
            in_force,
            ring,
        })
    }
}
