//! Opening a store on the map of the last savepoint.
ghost use Rattle.std.specs.Prelude.{◌≡◌, ◌≢◌, ◌⊎◌, ◌↔◌, ℕ, ◌+◌, ◌-◌, ◌<◌, ◌≤◌, ◌^◌};
ghost use Rattle.std.specs.Prelude.{List, length, replicate, sum, Err, None, IfOk, IfErr, OnOk};
ghost use Rattle.std.specs.Prelude.{OnErr, get_or, false};
ghost use Rattle.mdb_model.specs.Causes.{Rose};
ghost use Rattle.mdb_model.specs.declared.limits.TheConstants.{MOST_BLOCKS};
ghost use Rattle.mdb_model.specs.declared.fault.Damage.{Damage};
ghost use Rattle.mdb_host.specs.Reads.{ReadsOnly};
ghost use Rattle.mdb_bytes.specs.Firsts.{no_entry};
ghost use Rattle.free_blocks.specs.Free.{IsFree, free_count};
ghost use Rattle.volume_disk.specs.Blocks.{IsArea, block_at};
ghost use Rattle.converter.specs.Maps.{Maps, IsSoundMaps, IsUsed, empty_maps, block_of};
ghost use Rattle.converter.specs.Loads.{IsRead, Breaks};
ghost use Rattle.page_store.specs.Store.{Store, IsStore, block_count, IsKnown};
ghost use Rattle.page_store.specs.Opens.{IsStoreOpened, OpenFaultReports, FreesUnused, own_pages};
ghost use Rattle.page_store.specs.Opens.{opening_fault};

use crate::store::{FrameState, PageStore};
use converter::{Converter, Entry};
use free_blocks::{FreeBlocks, Marks};
use mdb_bytes::RestartRecord;
use mdb_host::Host;
use mdb_model::fault::{Memory, OpenFault, PageFault};
use mdb_model::limits::PAGE_BYTES;
use std::alloc::Global;
use volume_disk::Volumes;

// The memory of a store.
#[derive(Drop)]
struct Room {
    converter: Converter,
    free: FreeBlocks,
    marks: Marks,
    frames: Vec<[u8; PAGE_BYTES]>,
    states: Vec<FrameState>,
    pinned: Vec<Entry>,
}

// Takes all memory that a store of n blocks uses.
fn take_room(alloc: Global, blocks: u32) -> Result<Room, Memory>
    requires some { 0 < blocks }
    requires bound { blocks ≤ MOST_BLOCKS }
    // The result.
    ensures converter { IfOk result (λ r. r.converter ≡ empty_maps blocks (replicate blocks 0)) }
    ensures free { IfOk result (λ r. r.free ≡ replicate blocks false) }
    ensures marks { IfOk result (λ r. r.marks ≡ replicate blocks (replicate 16 false)) }
    ensures frames { IfOk result (λ r. length r.frames.items ≡ blocks) }
    ensures states { IfOk result (λ r. r.states.items ≡ replicate blocks FrameState.Absent) }
    ensures pinned { IfOk result (λ r. length r.pinned.items ≡ r.converter.conv + blocks) }
{
    let converter = Converter::new(alloc, blocks)?;
    let free = FreeBlocks::new(alloc, blocks)?;
    let marks = Marks::new(alloc, blocks)?;
    let places = (converter.leaves() + 1 + blocks) as usize;
    let Ok(frames) = vec![in alloc; [0u8; PAGE_BYTES]; blocks as usize] else {
        return Err(Memory);
    };
    let Ok(states) = vec![in alloc; FrameState::Absent; blocks as usize] else {
        return Err(Memory);
    };
    let Ok(pinned) = vec![in alloc; Entry { block: 0, stamp: 0 }; places] else {
        return Err(Memory);
    };
    Ok(Room {
        converter,
        free,
        marks,
        frames,
        states,
        pinned,
    })
}

// Makes each block free, from the third on, that no map has.
fn free_unused(free: &mut FreeBlocks, converter: &Converter, blocks: u32)
    requires none { free.old ≡ replicate blocks false }
    requires area { blocks ≡ length converter.now.owner }
    ensures { FreesUnused converter.now blocks free.new }
{
    for block in 2..blocks {
        if !converter.uses(block) {
            free.give(block);
        }
    }
}

// The same fault of an opening.
fn of_opening(fault: PageFault) -> OpenFault
    ensures { result ≡ opening_fault fault }
{
    match fault {
        PageFault::Failed => OpenFault::Failed,
        PageFault::Damaged(damage) => OpenFault::Damaged(damage),
    }
}

impl PageStore {
    /// Opens the map that a restart record names: it is the present map and that of the last
    /// savepoint. It takes all memory that the store will use, and reads no page. The record's root
    /// need not be one of the area. After an error nothing is kept.
    pub fn open<H: Host>(
        alloc: Global,
        host: &mut H,
        rec: &RestartRecord,
    ) -> Result<PageStore, OpenFault>
        requires some { 0 < sum rec.now.volumes.items }
        requires bound { sum rec.now.volumes.items ≤ MOST_BLOCKS }
        requires number { rec.now.savepoint + 1 < 2 ^ 62 }
        requires there { H.tells → IsArea rec.now.volumes.items (H.disk host.old).seen }
        // The result.
        ensures opened { IfOk result (λ s. IsStoreOpened s rec.now.volumes.items rec.now.savepoint) }
        ensures known { IfOk result (λ s. H.tells → IsKnown H.tells s (H.disk host.new).seen) }
        ensures read { IfOk result
            (λ s. H.tells
            → IsRead s.maps.conv (block_count s) rec.now.root
            (block_at rec.now.volumes.items (H.disk host.old).seen) (s.maps.conv - 1)
            s.maps.saved) }
        ensures own { IfOk result
            (λ s. (q : ℕ) → q < s.maps.conv → 1 < block_of s.maps.saved q) }
        ensures whole { IfOk result
            (λ s. H.tells → (damage : Damage)
            → Breaks rec.now.volumes.items s.maps.conv (block_count s) rec.now.root
            (block_at rec.now.volumes.items (H.disk host.old).seen) damage
            → ⊥) }
        ensures broken { IfErr result
            (OpenFaultReports
            (λ damage. H.tells
            → Breaks rec.now.volumes.items (own_pages (sum rec.now.volumes.items))
            (sum rec.now.volumes.items) rec.now.root
            (block_at rec.now.volumes.items (H.disk host.old).seen) damage)) }
        // The devices.
        ensures reads { ReadsOnly H.Host host.old host.new }
        // The faults.
        ensures cause { result ≡ Err OpenFault.Failed
            → Rose (H.faults host.old) (H.faults host.new) }
    {
        let volumes = Volumes::new(&rec.volumes);
        let blocks = volumes.blocks();
        let Ok(room) = take_room(alloc, blocks) else {
            return Err(OpenFault::Memory);
        };
        let Room {
            mut converter,
            mut free,
            marks,
            frames,
            states,
            pinned,
        } = room;
        match converter.load(host, &volumes, rec.root) {
            Ok(()) => {}
            Err(fault) => return Err(of_opening(fault)),
        }
        free_unused(&mut free, &converter, blocks);
        // Opens the invariant of the maps.
        let _leaves = converter.leaves();
        Ok(PageStore {
            volumes,
            converter,
            free,
            marks,
            frames,
            states,
            next: rec.savepoint + 1,
            is_pinned: false,
            pinned,
            search_from: 0,
        })
    }
}
