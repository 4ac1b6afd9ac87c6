//! The devices of a database, one by one.
ghost use Rattle.std.specs.Prelude.{◌≡◌, ℕ, ◌≤◌, ◌<◌, None, OnOk, IfErr};
ghost use Rattle.mdb_model.specs.Causes.{HasCause};
ghost use Rattle.mdb_host.specs.Disk.{Disk, Goes, Agree, Synced};
ghost use Rattle.mdb_host.specs.Places.{device_at};
ghost use Rattle.creation.specs.Devices.{device_count, SyncedUpTo};

use mdb_host::{Device, Failed, Host};

// How many devices a database may have: eight data volumes, the log volume and 99 media.
pub(crate) const DEVICES: u8 = 108;

/// The devices that a database may have, by numbers from 0: the data volumes, the log volume, the
/// media.
pub(crate) fn device(number: u8) -> Device
    requires { number < device_count }
    ensures { result ≡ device_at number }
{
    if number < 8 {
        Device::Data(number + 1)
    } else if number == 8 {
        Device::Log
    } else {
        Device::Medium(number - 8)
    }
}

// Syncs a device where it is there.
fn sync_device<H: Host>(host: &mut H, device: Device) -> Result<(), Failed>
    ensures calm { H.tells → Goes (H.disk host.old) (H.disk host.new) Agree }
    ensures seen { H.tells → Agree (H.disk host.old).seen (H.disk host.new).seen }
    ensures synced { OnOk result (H.tells → Synced (H.disk host.new) device) }
    ensures cause { HasCause (H.faults host.old) (H.faults host.new) result }
    ensures say_faults { H.say_faults host.new ≡ H.say_faults host.old }
{
    if host.size(device).is_none() {
        return Ok(());
    }
    host.sync(device)
}

/// Syncs every device that is there. After it, a crash leaves of each what a read gives.
pub fn sync_devices<H: Host>(host: &mut H) -> Result<(), Failed>
    ensures calm { H.tells → Goes (H.disk host.old) (H.disk host.new) Agree }
    ensures seen { H.tells → Agree (H.disk host.old).seen (H.disk host.new).seen }
    ensures synced { OnOk result (H.tells → SyncedUpTo device_count (H.disk host.new)) }
    ensures cause { HasCause (H.faults host.old) (H.faults host.new) result }
    ensures say_faults { H.say_faults host.new ≡ H.say_faults host.old }
{
    for number in 0..DEVICES {
        sync_device(host, device(number))?;
    }
    Ok(())
}
