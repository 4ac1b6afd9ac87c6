//! The states of a savepoint.
ghost use Rattle.std.specs.Prelude.{◌≡◌, ◌⊎◌, ℕ, ◌+◌, ◌-◌, ◌*◌, ◌<◌, ◌≤◌};
ghost use Rattle.std.specs.Prelude.{List, length, get_or, sum, replicate, IfOk, IfErr, OnOk, OnErr};
ghost use Rattle.std.specs.Prelude.{None, Some};
ghost use Rattle.mdb_model.specs.Causes.{HasCause};
ghost use Rattle.mdb_model.specs.Images.{Image};
ghost use Rattle.mdb_host.specs.Disk.{Disk, Goes, Agree, Arrives, IsWithin};
ghost use Rattle.mdb_bytes.specs.declared.converter_pages.ConverterEntry.{ConverterEntry};
ghost use Rattle.mdb_bytes.specs.Parts.{KeepsLimits};
ghost use Rattle.mdb_bytes.specs.SlotRecords.{restart_format};
ghost use Rattle.free_blocks.specs.Free.{IsFree, free_count};
ghost use Rattle.volume_disk.specs.Blocks.{IsArea, Writes, block_at, IsDurable};
ghost use Rattle.gate_slots.specs.declared.body.SlotBody.TheVariants.{Restart};
ghost use Rattle.gate_slots.specs.Slots.{IsReady};
ghost use Rattle.gate_slots.specs.Steps.{SlotsTorn, Switches, HasSwitched};
ghost use Rattle.converter.specs.Maps.{Maps, entry_at, block_of, AreUnused, Leaves, FreesLeaving, frozen_as_saved};
ghost use Rattle.converter.specs.Tree.{HasTree};
ghost use Rattle.converter.specs.Own.{OwnOnly, Fewer, TakesForFrozen, SavedLeaves};
ghost use Rattle.savepoint.specs.Calls.{MayWriteConverter, WritesConverter, MaySwitch, SwitchesOver};
ghost use Rattle.savepoint.specs.Stands.{restart_place, HasSavepoint, AtSwitch, IsMapPlaced, KeepsMapBlocks};

use crate::writing::write_settled;
use arrayvec::ArrayVec;
use converter::{Converter, FrozenMap};
use free_blocks::{FreeBlocks, Marks};
use gate_slots::{SlotBody, Slots};
use mdb_bytes::RestartRecord;
use mdb_host::{Failed, Host};
use volume_disk::Volumes;

/// What a savepoint stands for: its number, the last commit that it holds, and the position where
/// the log after that begins.
#[derive(Clone, Copy, Debug, PartialEq, Eq)]
pub struct Mark {
    /// The number of the savepoint.
    pub savepoint: u64,
    /// The number of the last commit that it holds.
    pub commit: u64,
    /// Where the log after that commit begins, in bytes of the log.
    pub position: u64,
}

/// A map is frozen, and its pages are on their way to their blocks.
#[derive(Drop)]
pub struct Frozen {
    map: FrozenMap,
    mark: Mark,
    pub ghost same: { map.savepoint ≡ mark.savepoint },
}

/// All pages of the map are on their blocks, durably.
#[derive(Drop)]
pub struct PagesWritten {
    map: FrozenMap,
    mark: Mark,
    pub ghost same: { map.savepoint ≡ mark.savepoint },
}

/// Leaves and root are on their blocks, durably.
#[derive(Drop)]
pub struct ConverterWritten {
    map: FrozenMap,
    mark: Mark,
    root: u32,
    pub ghost same: { map.savepoint ≡ mark.savepoint },
}

/// The record names the root, durably.
#[derive(Drop)]
pub struct Switched {
    map: FrozenMap,
    mark: Mark,
    pub ghost same: { map.savepoint ≡ mark.savepoint },
}

impl Frozen {
    /// A savepoint of this map.
    pub fn begin(map: FrozenMap, mark: Mark) -> Frozen
        requires { map.savepoint ≡ mark.savepoint }
        ensures { (result.map ≡ map) × (result.mark ≡ mark) }
    {
        Frozen { map, mark }
    }

    /// Makes the devices keep each block, once no page of the map is unwritten: after it a crash
    /// leaves of each block what a read gives. After an error nothing is known of what it leaves.
    pub fn pages_done<H: Host>(
        self,
        host: &mut H,
        volumes: &Volumes,
    ) -> Result<PagesWritten, (Frozen, Failed)>
        requires { H.tells → IsArea volumes.now (H.disk host.old).seen }
        // The devices.
        ensures goes { H.tells → Goes (H.disk host.old) (H.disk host.new) Agree }
        ensures seen { H.tells → Agree (H.disk host.old).seen (H.disk host.new).seen }
        // The result.
        ensures settled { OnOk result (H.tells → IsDurable volumes.now (H.disk host.new)) }
        ensures next { IfOk result (λ s. (s.map ≡ self.map) × (s.mark ≡ self.mark)) }
        ensures back { IfErr result (λ e. (e.0.map ≡ self.map) × (e.0.mark ≡ self.mark)) }
        // The faults.
        ensures cause { HasCause (H.faults host.old) (H.faults host.new) result }
        ensures say_faults { H.say_faults host.new ≡ H.say_faults host.old }
    {
        match volumes.sync_all(host) {
            Ok(()) => Ok(PagesWritten {
                map: self.map,
                mark: self.mark,
            }),
            Err(failed) => Err((self, failed)),
        }
    }
}

impl PagesWritten {
    /// Writes the changed leaves and the root to free blocks, durably. After an error some of these
    /// pages have new blocks, which may hold any bytes.
    pub fn write_converter<H: Host>(
        self,
        host: &mut H,
        volumes: &Volumes,
        converter: &mut Converter,
        free: &mut FreeBlocks,
    ) -> Result<ConverterWritten, (PagesWritten, Failed)>
        requires may { MayWriteConverter H.tells volumes.now converter.old free.old
            self.map.savepoint (H.disk host.old).seen }
        requires room { converter.old.conv ≤ free_count free.old }
        // The result.
        ensures next { IfOk result
            (λ s. (s.map ≡ self.map) × (s.mark ≡ self.mark)
            × (s.root ≡ block_of converter.new.frozen 0)) }
        ensures back { IfErr result (λ e. (e.0.map ≡ self.map) × (e.0.mark ≡ self.mark)) }
        ensures writes { WritesConverter H.tells volumes.now converter.old converter.new free.old
            free.new (H.disk host.old) (H.disk host.new) result }
        ensures held { OnOk result
            (H.tells → (image : Image) → (H.disk host.new).may_leave (H.disk host.new).now image
            → HasTree converter.new.frozen converter.new.conv (block_at volumes.now image)) }
        // At each moment each image has the slots and stands for the map that it stood for, where
        // no block of that is free.
        ensures kept { H.tells
            → Goes (H.disk host.old) (H.disk host.new) (KeepsMapBlocks volumes.now free.old) }
        // The faults.
        ensures cause { HasCause (H.faults host.old) (H.faults host.new) result }
        ensures say_faults { H.say_faults host.new ≡ H.say_faults host.old }
    {
        match write_settled(&self.map, host, volumes, converter, free) {
            Ok(root) => Ok(ConverterWritten {
                map: self.map,
                mark: self.mark,
                root,
            }),
            Err(failed) => Err((self, failed)),
        }
    }
}

impl ConverterWritten {
    /// The block of the root.
    pub fn root(&self) -> u32
        ensures { result ≡ self.now.root }
    {
        self.root
    }

    /// Puts the record of this savepoint in force. After an error the last savepoint's record is,
    /// or this one, until the slots are read.
    pub fn switch<H: Host>(
        self,
        host: &mut H,
        slots: &mut Slots,
        rec: &RestartRecord,
    ) -> Result<Switched, (ConverterWritten, Failed)>
        requires may { MaySwitch slots.old self.root self.mark rec.now }
        requires within { H.tells
            → IsWithin (H.disk host.old).seen slots.old.place.device (8192 * slots.old.place.page)
            16384 }
        // The result.
        ensures switches { SwitchesOver H.tells (H.disk host.old) (H.disk host.new) slots.old
            slots.new self.root rec.now result }
        ensures next { IfOk result (λ s. (s.map ≡ self.map) × (s.mark ≡ self.mark)) }
        ensures back { IfErr result
            (λ e. (e.0.map ≡ self.map) × (e.0.mark ≡ self.mark) × (e.0.root ≡ self.root)) }
        // The faults.
        ensures cause { HasCause (H.faults host.old) (H.faults host.new) result }
        ensures say_faults { H.say_faults host.new ≡ H.say_faults host.old }
    {
        let body = SlotBody::Restart(copy_record(rec));
        match slots.switch(host, &body) {
            Ok(()) => Ok(Switched {
                map: self.map,
                mark: self.mark,
            }),
            Err(failed) => Err((self, failed)),
        }
    }
}

// The same elements.
fn copy<T: Copy + Default>(from: &ArrayVec<T, 8>) -> ArrayVec<T, 8>
    ensures { result.items ≡ from.now.items }
{
    let mut own = ArrayVec::new();
    for x in from.as_slice() {
        own.push(*x);
    }
    own
}

// The same record.
fn copy_record(rec: &RestartRecord) -> RestartRecord
    ensures { result ≡ rec.now }
{
    RestartRecord {
        format: rec.format,
        state: rec.state,
        slot: rec.slot,
        name: rec.name,
        savepoint: rec.savepoint,
        commit: rec.commit,
        position: rec.position,
        root: rec.root,
        volumes: copy(&rec.volumes),
        base: rec.base,
        pending_medium: rec.pending_medium,
        pending_savepoint: rec.pending_savepoint,
        snapshots: copy(&rec.snapshots),
    }
}

impl Switched {
    /// Makes the frozen map that of the last savepoint, and frees what the former one alone had,
    /// but for blocks with a mark.
    pub fn release(self, converter: &mut Converter, free: &mut FreeBlocks, marks: &Marks) -> Mark
        requires frozen { converter.old.frozen_at ≡ Some self.map.savepoint }
        requires area { (length free.old ≡ length converter.old.owner)
            × (length marks.now ≡ length converter.old.owner) }
        requires unused { AreUnused converter.old free.old }
        ensures mark { result ≡ self.mark }
        ensures maps { converter.new ≡ frozen_as_saved converter.old }
        ensures given { FreesLeaving (Leaves converter.old marks.now) 0 (length converter.old.saved)
            free.old free.new }
    {
        let Switched { map, mark } = self;
        converter.settle(free, marks, map);
        mark
    }
}
