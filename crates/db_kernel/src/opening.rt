//! Opening a database: its records say where its pages and its log are.
ghost use Rattle.std.specs.Prelude.{◌≡◌, ℕ, ◌+◌, ◌≤◌, ◌<◌, ◌^◌, length, Err, IfOk, IfErr, OnOk, true};
ghost use Rattle.mdb_model.specs.Causes.{Rose};
ghost use Rattle.mdb_model.specs.Images.{Image};
ghost use Rattle.mdb_model.specs.declared.fault.Device.TheVariants.{Data};
ghost use Rattle.mdb_model.specs.Worlds.{World, off};
ghost use Rattle.mdb_host.specs.Disk.{Disk, Goes, Agree, Keeps, Synced};
ghost use Rattle.mdb_bytes.specs.Rings.{HasRing, ring_size};
ghost use Rattle.gate_slots.specs.declared.body.SlotBody.TheVariants.{Restart};
ghost use Rattle.gate_slots.specs.Slots.{IsReady};
ghost use Rattle.creation.specs.Devices.{device_count, SyncedUpTo};
ghost use Rattle.open_database.specs.Outside.{StandsFor};
ghost use Rattle.open_database.specs.Serving.{IsSoundDatabase, greatest_number};
ghost use Rattle.open_database.specs.Stretch.{EachLeft};
ghost use Rattle.db_kernel.specs.Damages.{RefusesInFront, Refuses, past_end_in};
ghost use Rattle.db_kernel.specs.Kept.{as_refusal, opens};
ghost use Rattle.db_kernel.specs.Opening.{IsSoundFound, IsBehindRecords, OpensSynced, OpensWorld};
ghost use Rattle.db_kernel.specs.Reading.{FindsRecords, IsLowStart, VolumeFits};
ghost use Rattle.db_kernel.specs.Taking.{WasInReach};

use crate::records::{check_volumes, log_start, read_log_info, read_restart_record};
use creation::sync_devices;
use mdb_host::Host;
use mdb_model::fault::OpenFault;
use mdb_model::script::Refusal;
use open_database::{Access, Database};
use page_store::RecordInForce;
use redo_ring::LogStart;
use standing::showing_is_enough;
use std::alloc::Global;

/// What the records of a database say.
#[derive(Drop)]
pub struct Found {
    /// The restart record, and the slots that hold it.
    pub in_force: RecordInForce,
    /// Where its log begins.
    pub start: LogStart,
    /// The blocks of its data area.
    pub blocks: u32,
}

// How a fault is answered.
fn refusal_of(fault: OpenFault) -> Refusal
    ensures { result ≡ as_refusal fault }
{
    match fault {
        OpenFault::Memory => Refusal::MemoryWanting,
        OpenFault::Failed => Refusal::DeviceFailed,
        OpenFault::Damaged(damage) => Refusal::Damaged(damage),
    }
}

// Reads the records of devices that are synced.
fn read_records<H: Host>(host: &mut H) -> Result<Found, Refusal>
    ensures found { IfOk result (λ found. H.tells → FindsRecords found (H.disk host.old).seen) }
    ensures start { IfOk result (λ found. IsLowStart found.start) }
    ensures sound { IfOk result IsSoundFound }
    ensures area { IfOk result (λ found. H.tells → (volume : ℕ)
        → volume < length found.in_force.record.volumes.items
        → VolumeFits found.in_force.record volume (H.disk host.old).seen) }
    ensures ready { IfOk result (λ found. H.tells → Synced (H.disk host.old) (Data 1)
        → (image : Image) → (H.disk host.new).may_leave (H.disk host.new).now image
        → IsReady found.in_force.slots (Restart found.in_force.record) image) }
    ensures ring { IfOk result (λ found. H.tells
        → HasRing (ring_size found.start.pages) (H.disk host.new).seen) }
    ensures refuses { H.tells → IfErr result (RefusesInFront (H.disk host.old).seen) }
    ensures calm { H.tells → Goes (H.disk host.old) (H.disk host.new) Agree }
    ensures seen { H.tells → Agree (H.disk host.old).seen (H.disk host.new).seen }
    ensures later { H.faults host.old ≤ H.faults host.new }
    ensures cause { result ≡ Err Refusal.DeviceFailed
        → Rose (H.faults host.old) (H.faults host.new) }
    ensures say_faults { H.say_faults host.new ≡ H.say_faults host.old }
{
    let in_force = read_restart_record(host)?;
    let blocks = check_volumes(host, &in_force.record)?;
    let info = read_log_info(host)?;
    let start = log_start(&in_force.record, &info)?;
    Ok(Found {
        in_force,
        start,
        blocks,
    })
}

// Syncs every device, so that what is read from now on stays, and reads the records.
fn find_records<H: Host>(host: &mut H) -> Result<Found, Refusal>
    ensures found { IfOk result (λ found. H.tells → FindsRecords found (H.disk host.old).seen) }
    ensures start { IfOk result (λ found. IsLowStart found.start) }
    ensures sound { IfOk result IsSoundFound }
    ensures area { IfOk result (λ found. H.tells → (volume : ℕ)
        → volume < length found.in_force.record.volumes.items
        → VolumeFits found.in_force.record volume (H.disk host.old).seen) }
    ensures ready { IfOk result (λ found. H.tells → (image : Image)
        → (H.disk host.new).may_leave (H.disk host.new).now image
        → IsReady found.in_force.slots (Restart found.in_force.record) image) }
    ensures ring { IfOk result (λ found. H.tells
        → HasRing (ring_size found.start.pages) (H.disk host.new).seen) }
    ensures synced { IfOk result (λ found. H.tells → SyncedUpTo device_count (H.disk host.new)) }
    ensures past_end { result ≡ Err Refusal.NumberEnd → H.tells
        → SyncedUpTo device_count (H.disk host.new) }
    ensures refuses { H.tells → IfErr result (RefusesInFront (H.disk host.old).seen) }
    ensures calm { H.tells → Goes (H.disk host.old) (H.disk host.new) Agree }
    ensures seen { H.tells → Agree (H.disk host.old).seen (H.disk host.new).seen }
    ensures later { H.faults host.old ≤ H.faults host.new }
    ensures cause { result ≡ Err Refusal.DeviceFailed
        → Rose (H.faults host.old) (H.faults host.new) }
    ensures say_faults { H.say_faults host.new ≡ H.say_faults host.old }
{
    let Ok(()) = sync_devices(host) else {
        return Err(Refusal::DeviceFailed);
    };
    read_records(host)
}

/// Opens the database of the devices: its rows are those of the record's map with the commits of
/// the log after it, and a savepoint has them. All devices are synced first.
pub fn open_devices<H: Host>(
    alloc: Global,
    host: &mut H,
    access: Access,
) -> Result<Database, Refusal>
    ensures sound { IfOk result (λ database. IsSoundDatabase H.tells database
        (H.disk host.new)) }
    ensures numbers { IfOk result (λ database. greatest_number database ≤ 2 ^ 61 + 2 ^ 35) }
    ensures access { IfOk result (λ database. database.access ≡ access) }
    ensures opens { H.tells → (w : World) → off w ≡ w → StandsFor (H.disk host.old).seen w
        → OpensWorld H.tells (H.disk host.old) (H.disk host.new) w access result }
    ensures refuses { H.tells → IfErr result (Refuses (H.disk host.old).seen) }
    ensures in_reach { H.tells → OnOk result (WasInReach (H.disk host.old) (H.disk host.new)) }
    ensures past_end { H.tells → result ≡ Err Refusal.NumberEnd
        → EachLeft (H.disk host.new) (λ image. past_end_in (opens access) image ≡ true) }
    ensures later { H.faults host.old ≤ H.faults host.new }
    ensures cause { result ≡ Err Refusal.DeviceFailed
        → Rose (H.faults host.old) (H.faults host.new) }
    ensures keeps { H.tells → Keeps (H.disk host.old) (H.disk host.new) }
    ensures say_faults { H.say_faults host.new ≡ H.say_faults host.old }
{
    // A law that the promise stands on.
    showing_is_enough();
    let found = find_records(host)?;
    open_found(alloc, host, found, access)
}

// Opens the database of these records, with devices that are synced.
fn open_found<H: Host>(
    alloc: Global,
    host: &mut H,
    found: Found,
    access: Access,
) -> Result<Database, Refusal>
    requires start { IsLowStart found.start }
    requires sound { IsSoundFound found }
    requires found { H.tells → FindsRecords found (H.disk host.old).seen }
    requires area { H.tells → (volume : ℕ)
        → volume < length found.in_force.record.volumes.items
        → VolumeFits found.in_force.record volume (H.disk host.old).seen }
    requires ready { H.tells → (image : Image)
        → (H.disk host.old).may_leave (H.disk host.old).now image
        → IsReady found.in_force.slots (Restart found.in_force.record) image }
    requires ring { H.tells → HasRing (ring_size found.start.pages) (H.disk host.old).seen }
    requires synced { H.tells → SyncedUpTo device_count (H.disk host.old) }
    ensures sound { IfOk result (λ database. IsSoundDatabase H.tells database
        (H.disk host.new)) }
    ensures numbers { IfOk result (λ database. greatest_number database ≤ 2 ^ 61 + 2 ^ 35) }
    ensures access { IfOk result (λ database. database.access ≡ access) }
    ensures opens { H.tells → (w : World) → off w ≡ w → StandsFor (H.disk host.old).seen w
        → OpensSynced H.tells (H.disk host.old) (H.disk host.new) w access result }
    ensures behind { IfErr result IsBehindRecords }
    ensures later { H.faults host.old ≤ H.faults host.new }
    ensures cause { result ≡ Err Refusal.DeviceFailed
        → Rose (H.faults host.old) (H.faults host.new) }
    ensures keeps { H.tells → Keeps (H.disk host.old) (H.disk host.new) }
    ensures say_faults { H.say_faults host.new ≡ H.say_faults host.old }
{
    // A law that the promise stands on.
    showing_is_enough();
    let Found {
        in_force,
        start,
        blocks,
    } = found;
    match Database::open(alloc, host, in_force, &start, blocks, access) {
        Ok(database) => Ok(database),
        Err(fault) => Err(refusal_of(fault)),
    }
}
