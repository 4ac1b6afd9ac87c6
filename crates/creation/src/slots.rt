//! The first records, in their slots.
ghost use Rattle.std.specs.Prelude.{◌≡◌, ℕ, ◌^◌, ◌≤◌, ◌<◌, List, [], sum, OnOk};
ghost use Rattle.mdb_model.specs.Causes.{HasCause};
ghost use Rattle.mdb_model.specs.declared.fault.Device.TheVariants.{Data, Log};
ghost use Rattle.mdb_host.specs.Disk.{Disk, Goes, IsWithin};
ghost use Rattle.mdb_bytes.specs.Firsts.{first_restart, first_log_info};
ghost use Rattle.creation.specs.Making.{Each, HasAllButRecords, IsLogged};
ghost use Rattle.creation.specs.Quiet.{AnyHow};
ghost use Rattle.standing.specs.Standing.{AreVolumes, IsSite, IsNew};

use crate::pages::root_block;
use arrayvec::ArrayVec;
use gate_slots::{SlotBody, SlotPlace, Slots};
use mdb_bytes::{AreaState, LogInfo, RestartRecord};
use mdb_host::{Device, Failed, Host};
use mdb_model::name::Name;

// The slots of the restart record.
const DATA_SLOTS: SlotPlace = SlotPlace {
    device: Device::Data(1),
    page: 0,
};

// The slots of the log info.
const LOG_SLOTS: SlotPlace = SlotPlace {
    device: Device::Log,
    page: 0,
};

// Nothing is saved.
fn log_info(birth: u64, pages: u32) -> LogInfo
    ensures { result ≡ first_log_info birth pages }
{
    LogInfo {
        format: 1,
        slot: 1,
        name: Name {
            birth,
            generation: 1,
        },
        saved_commit: 0,
        saved_position: 0,
        pending_medium: 0,
        pages,
        pending_commit: 0,
        pending_position: 0,
    }
}

// The first savepoint has no commit.
fn restart(birth: u64, blocks: u32, volumes: &ArrayVec<u32, 8>) -> RestartRecord
    requires { (blocks ≡ sum volumes.now.items) × (blocks ≤ 65536) }
    ensures { result ≡ first_restart birth volumes.now.items }
{
    let mut sizes = ArrayVec::new();
    for i in 0..volumes.len() {
        sizes.push(volumes[i]);
    }
    RestartRecord {
        format: 1,
        state: AreaState::Normal,
        slot: 1,
        name: Name {
            birth,
            generation: 1,
        },
        savepoint: 1,
        commit: 0,
        position: 0,
        root: root_block(blocks),
        volumes: sizes,
        base: 0,
        pending_medium: 0,
        pending_savepoint: 0,
        snapshots: ArrayVec::new(),
    }
}

/// Puts the log info in force.
pub(crate) fn open_log_info<H: Host>(host: &mut H, birth: u64, log_pages: u32) -> Result<(), Failed>
    requires birth { birth < 2 ^ 61 }
    requires within { H.tells → IsWithin (H.disk host.old).seen Log 0 16384 }
    ensures logged { OnOk result (H.tells → (volumes : List ℕ) → AreVolumes volumes
        → Each (H.disk host.old) (HasAllButRecords
        (record { birth = birth; volumes = volumes; log_pages = log_pages }))
        → Each (H.disk host.new) (IsLogged
        (record { birth = birth; volumes = volumes; log_pages = log_pages }))) }
    ensures goes { H.tells → Goes (H.disk host.old) (H.disk host.new) AnyHow }
    ensures cause { HasCause (H.faults host.old) (H.faults host.new) result }
    ensures say_faults { H.say_faults host.new ≡ H.say_faults host.old }
{
    Slots::first(host, LOG_SLOTS, &SlotBody::Log(log_info(birth, log_pages)))?;
    Ok(())
}

/// Puts the restart record in force.
pub(crate) fn open_restart_record<H: Host>(
    host: &mut H,
    birth: u64,
    blocks: u32,
    volumes: &ArrayVec<u32, 8>,
) -> Result<(), Failed>
    requires birth { (1 ≤ birth) × (birth < 2 ^ 61) }
    requires volumes { AreVolumes volumes.now.items }
    requires blocks { blocks ≡ sum volumes.now.items }
    requires within { H.tells → IsWithin (H.disk host.old).seen (Data 1) 0 16384 }
    ensures stands { OnOk result (H.tells → (log_pages : ℕ)
        → IsSite (record { birth = birth; volumes = volumes.now.items; log_pages = log_pages })
        → Each (H.disk host.old) (IsLogged
        (record { birth = birth; volumes = volumes.now.items; log_pages = log_pages }))
        → Each (H.disk host.new) (IsNew
        (record { birth = birth; volumes = volumes.now.items; log_pages = log_pages }))) }
    ensures goes { H.tells → Goes (H.disk host.old) (H.disk host.new) AnyHow }
    ensures cause { HasCause (H.faults host.old) (H.faults host.new) result }
    ensures say_faults { H.say_faults host.new ≡ H.say_faults host.old }
{
    let body = SlotBody::Restart(restart(birth, blocks, volumes));
    Slots::first(host, DATA_SLOTS, &body)?;
    Ok(())
}
