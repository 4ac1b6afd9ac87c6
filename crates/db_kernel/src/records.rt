//! The records that a restart begins from.
ghost use Rattle.std.specs.Prelude.{◌≡◌, ℕ, ◌+◌, ◌*◌, ◌^◌, ◌≤◌, ◌<◌, ◌++◌, List, length, get_or, sum, take, map, nat_le, false, IsTrue, Err, Some, IfOk, IfErr, OnOk};
ghost use Rattle.mdb_model.specs.Causes.{Rose};
ghost use Rattle.mdb_model.specs.declared.fault.Device.TheVariants.{Data, Log};
ghost use Rattle.mdb_model.specs.Images.{Image, size_of};
ghost use Rattle.mdb_host.specs.Disk.{Disk, Goes, Agree, Synced};
ghost use Rattle.mdb_bytes.specs.Parts.{KeepsLimits};
ghost use Rattle.gate_slots.specs.declared.body.SlotBody.TheVariants.{Restart};
ghost use Rattle.gate_slots.specs.Slots.{HasBody, IsReady};
ghost use Rattle.savepoint.specs.Stands.{restart_place};
ghost use Rattle.mdb_bytes.specs.SlotRecords.{restart_format, log_info_format};
ghost use Rattle.db_kernel.specs.Damages.{whole_damage, HasRestart, HasLogInfo, RefusesInFront, log_start_of, restart_numbers, info_numbers, is_past, has_past_snapshot, is_past_end};
ghost use Rattle.db_kernel.specs.Reading.{VolumeFits, IsAreaSize, IsLowStart};
ghost use Rattle.standing.specs.Standing.{data_slots, log_slots};

use gate_slots::{SlotBody, SlotFault, SlotPlace, Slots};
use mdb_bytes::{AreaState, LogInfo, RestartRecord, SnapshotEntry};
use mdb_host::{Device, Host};
use mdb_model::fault::{Damage, Rule};
use mdb_model::limits::{MOST_BLOCKS, RECORD_NUMBER_END};
use mdb_model::script::Refusal;
use page_store::RecordInForce;
use redo_ring::LogStart;

// The slots of the restart record.
const DATA_SLOTS: SlotPlace = SlotPlace {
    device: Device::Data(1),
    page: 0,
};

// The slots of the log info.
const LOG_SLOTS: SlotPlace = SlotPlace {
    device: Device::Log,
    page: 0,
};

// A device breaks a rule as a whole.
pub(crate) fn damaged(device: Device, rule: Rule) -> Refusal
    ensures { result ≡ Refusal.Damaged (whole_damage device rule) }
{
    Refusal::Damaged(Damage {
        device,
        page: 0,
        rule,
    })
}

/// The restart record in force, and the slots that hold it.
pub(crate) fn read_restart_record<H: Host>(host: &mut H) -> Result<RecordInForce, Refusal>
    ensures force { IfOk result (λ found. H.tells
        → HasRestart (H.disk host.old).seen found.record) }
    ensures keeps { IfOk result (λ found. KeepsLimits restart_format found.record) }
    ensures body { IfOk result (λ found. HasBody restart_place found.slots
        (Restart found.record)) }
    ensures ready { IfOk result (λ found. H.tells → Synced (H.disk host.old) (Data 1)
        → (image : Image) → (H.disk host.new).may_leave (H.disk host.new).now image
        → IsReady found.slots (Restart found.record) image) }
    ensures refuses { H.tells → IfErr result (RefusesInFront (H.disk host.old).seen) }
    ensures calm { H.tells → Goes (H.disk host.old) (H.disk host.new) Agree }
    ensures seen { H.tells → Agree (H.disk host.old).seen (H.disk host.new).seen }
    ensures later { H.faults host.old ≤ H.faults host.new }
    ensures cause { result ≡ Err Refusal.DeviceFailed
        → Rose (H.faults host.old) (H.faults host.new) }
    ensures say_faults { H.say_faults host.new ≡ H.say_faults host.old }
{
    let Some(pages) = host.size(Device::Data(1)) else {
        return Err(damaged(Device::Data(1), Rule::Missing));
    };
    if pages < 64 || (MOST_BLOCKS as u64) < pages {
        return Err(damaged(Device::Data(1), Rule::Size));
    }
    match Slots::read(host, DATA_SLOTS) {
        Ok((slots, SlotBody::Restart(record))) => Ok(RecordInForce { slots, record }),
        Ok((_, SlotBody::Log(_))) => unreachable!(),
        Err(SlotFault::Failed) => Err(Refusal::DeviceFailed),
        Err(SlotFault::NoSlot) => Err(damaged(Device::Data(1), Rule::NoSlot)),
    }
}

// Tests one data volume against the record; the blocks of the volumes up to it.
fn check_volume<H: Host>(
    host: &H,
    restart: &RestartRecord,
    volume: usize,
    before: u32,
) -> Result<u32, Refusal>
    requires volumes { length restart.now.volumes.items ≤ 8 }
    requires inside { volume < length restart.now.volumes.items }
    requires before { before ≡ sum (take volume restart.now.volumes.items) }
    requires small { before ≤ 65536 }
    ensures least { IfOk result (λ blocks. 64 ≤ get_or restart.now.volumes.items volume 0) }
    ensures blocks { IfOk result (λ blocks. (blocks
        ≡ sum (take (volume + 1) restart.now.volumes.items)) × (blocks ≤ 65536)) }
    ensures fits { IfOk result (λ blocks. H.tells
        → VolumeFits restart.now volume (H.disk host.now).seen) }
    ensures refuses { H.tells → HasRestart (H.disk host.now).seen restart.now
        → IfErr result (RefusesInFront (H.disk host.now).seen) }
    ensures quiet { result ≡ Err Refusal.DeviceFailed → ⊥ }
{
    let device = Device::Data(volume as u8 + 1);
    let size = restart.volumes.as_slice()[volume];
    let Some(pages) = host.size(device) else {
        return Err(damaged(device, Rule::Missing));
    };
    if pages != size as u64 || size < 64 || MOST_BLOCKS - before < size {
        return Err(damaged(device, Rule::Size));
    }
    Ok(before + size)
}

/// Tests the data volumes against the record, by number; the blocks of all of them.
pub(crate) fn check_volumes<H: Host>(host: &H, restart: &RestartRecord) -> Result<u32, Refusal>
    requires keeps { KeepsLimits restart_format restart.now }
    ensures blocks { IfOk result (λ blocks. IsAreaSize restart.now blocks) }
    ensures least { IfOk result (λ blocks. (volume : ℕ) → volume < length restart.now.volumes.items
        → 64 ≤ get_or restart.now.volumes.items volume 0) }
    ensures fits { IfOk result (λ blocks. H.tells → (volume : ℕ)
        → volume < length restart.now.volumes.items
        → VolumeFits restart.now volume (H.disk host.now).seen) }
    ensures refuses { H.tells → HasRestart (H.disk host.now).seen restart.now
        → IfErr result (RefusesInFront (H.disk host.now).seen) }
    ensures quiet { result ≡ Err Refusal.DeviceFailed → ⊥ }
{
    let mut blocks = 0;
    for volume in 0..restart.volumes.len() {
        blocks = check_volume(host, restart, volume, blocks)?;
    }
    if blocks < 512 {
        return Err(damaged(Device::Data(restart.volumes.len() as u8), Rule::Size));
    }
    Ok(blocks)
}

/// The log info in force.
pub(crate) fn read_log_info<H: Host>(host: &mut H) -> Result<LogInfo, Refusal>
    ensures force { IfOk result (λ info. H.tells → HasLogInfo (H.disk host.old).seen info) }
    ensures keeps { IfOk result (λ info. KeepsLimits log_info_format info) }
    ensures pages { IfOk result (λ info. (4 ≤ info.pages) × (info.pages ≤ 65536)) }
    ensures size { IfOk result (λ info. H.tells
        → size_of ((H.disk host.old).seen Log) ≡ Some (info.pages * 8192)) }
    ensures refuses { H.tells → IfErr result (RefusesInFront (H.disk host.old).seen) }
    ensures calm { H.tells → Goes (H.disk host.old) (H.disk host.new) Agree }
    ensures seen { H.tells → Agree (H.disk host.old).seen (H.disk host.new).seen }
    ensures later { H.faults host.old ≤ H.faults host.new }
    ensures cause { result ≡ Err Refusal.DeviceFailed
        → Rose (H.faults host.old) (H.faults host.new) }
    ensures say_faults { H.say_faults host.new ≡ H.say_faults host.old }
{
    let Some(pages) = host.size(Device::Log) else {
        return Err(damaged(Device::Log, Rule::Missing));
    };
    if pages < 4 || (MOST_BLOCKS as u64) < pages {
        return Err(damaged(Device::Log, Rule::Size));
    }
    match Slots::read(host, LOG_SLOTS) {
        Ok((_, SlotBody::Log(info))) => {
            if info.pages as u64 != pages {
                return Err(damaged(Device::Log, Rule::Size));
            }
            Ok(info)
        }
        Ok((_, SlotBody::Restart(_))) => unreachable!(),
        Err(SlotFault::Failed) => Err(Refusal::DeviceFailed),
        Err(SlotFault::NoSlot) => Err(damaged(Device::Log, Rule::NoSlot)),
    }
}

// Whether one of these numbers is past the end.
fn are_past(numbers: &[u64]) -> bool
    ensures { result ≡ is_past numbers.now }
{
    numbers.iter().any(|number| RECORD_NUMBER_END <= *number)
}

// Whether a number of a snapshot is.
fn snapshots_are_past(entries: &[SnapshotEntry]) -> bool
    ensures { result ≡ has_past_snapshot entries.now }
{
    entries.iter().any(|entry| RECORD_NUMBER_END <= entry.commit
        || RECORD_NUMBER_END <= entry.savepoint)
}

// Whether a number of the restart record is, beside those of snapshots.
fn restart_is_past(restart: &RestartRecord) -> bool
    ensures { result ≡ is_past (restart_numbers restart.now) }
{
    are_past(&[
        restart.slot,
        restart.name.birth,
        restart.name.generation,
        restart.savepoint,
        restart.commit,
        restart.position,
        restart.base,
        restart.pending_savepoint,
    ])
}

// Whether a number of the log info is.
fn info_is_past(info: &LogInfo) -> bool
    ensures { result ≡ is_past (info_numbers info.now) }
{
    are_past(&[
        info.slot,
        info.name.birth,
        info.name.generation,
        info.saved_commit,
        info.saved_position,
        info.pending_commit,
        info.pending_position,
    ])
}

// Whether a number of the records is.
fn records_are_past(restart: &RestartRecord, info: &LogInfo) -> bool
    ensures { result ≡ is_past_end restart.now info.now }
{
    restart_is_past(restart)
        || snapshots_are_past(restart.snapshots.as_slice())
        || info_is_past(info)
}

// Where the log of these records begins.
fn start_by(restart: &RestartRecord, info: &LogInfo) -> LogStart
    ensures { result ≡ log_start_of restart.now info.now }
{
    let is_earlier = info.name.generation < restart.name.generation;
    LogStart {
        name: restart.name,
        pages: info.pages,
        position: restart.position,
        commit: restart.commit,
        saved_position: if is_earlier {
            restart.position
        } else {
            info.saved_position
        },
        saved_commit: if is_earlier {
            restart.commit
        } else {
            info.saved_commit
        },
    }
}

/// Where the log of these records begins; refused where a restore is open, and where a number is
/// past the end.
pub(crate) fn log_start(restart: &RestartRecord, info: &LogInfo) -> Result<LogStart, Refusal>
    requires pages { (4 ≤ info.now.pages) × (info.now.pages ≤ 65536) }
    ensures start { IfOk result (λ start. start ≡ log_start_of restart.now info.now) }
    ensures low { IfOk result IsLowStart }
    ensures numbers { IfOk result (λ start. (restart.now.savepoint < 2 ^ 61)
        × (restart.now.slot < 2 ^ 61)) }
    ensures normal { IfOk result (λ start. (restart.now.state ≡ AreaState.Normal)
        × (is_past_end restart.now info.now ≡ false)) }
    ensures refuses { (image : Image) → HasRestart image restart.now → HasLogInfo image info.now
        → IfErr result (RefusesInFront image) }
    ensures quiet { result ≡ Err Refusal.DeviceFailed → ⊥ }
{
    if restart.state == AreaState::RestoreOpen {
        return Err(Refusal::RestoreOpen);
    }
    if records_are_past(restart, info) {
        return Err(Refusal::NumberEnd);
    }
    Ok(start_by(restart, info))
}
