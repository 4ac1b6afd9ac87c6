//! The devices of a new database.
ghost use Rattle.std.specs.Prelude.{◌≡◌, ℕ, ◌+◌, ◌*◌, ◌≤◌, ◌<◌, true, false, List, length, get_or, OnOk, None};
ghost use Rattle.mdb_model.specs.Causes.{HasCause};
ghost use Rattle.mdb_model.specs.declared.fault.Device.TheVariants.{Data, Log};
ghost use Rattle.mdb_model.specs.Images.{Image};
ghost use Rattle.mdb_host.specs.Disk.{Disk, Goes, IsThere};
ghost use Rattle.mdb_host.specs.Places.{device_at};
ghost use Rattle.creation.specs.Devices.{device_count};
ghost use Rattle.creation.specs.Making.{Each, IsEmpty, HasZeroVolumes};
ghost use Rattle.standing.specs.Standing.{AreVolumes, Site};
ghost use Rattle.creation.specs.Quiet.{AnyHow};

use crate::devices::{DEVICES, device};
use arrayvec::ArrayVec;
use mdb_host::{Device, Failed, Host};

/// Whether a device that a database may have is there.
pub(crate) fn any_there<H: Host>(host: &H) -> bool
    ensures absent { result ≡ false → H.tells → (number : ℕ) → number < device_count
        → (H.disk host.now).seen (device_at number) ≡ None }
    ensures there { result ≡ true → H.tells
        → (number : ℕ) × (number < device_count)
        × IsThere (H.disk host.now).seen (device_at number) }
{
    for number in 0..DEVICES {
        if host.size(device(number)).is_some() {
            return true;
        }
    }
    false
}

// Makes the log volume.
fn make_log<H: Host>(host: &mut H, pages: u32) -> Result<(), Failed>
    requires absent { H.tells → Each (H.disk host.old) IsEmpty }
    ensures made { OnOk result (H.tells → (birth : ℕ) (volumes : List ℕ)
        → Each (H.disk host.new) (HasZeroVolumes
        (record { birth = birth; volumes = volumes; log_pages = pages }) 0)) }
    ensures goes { H.tells → Goes (H.disk host.old) (H.disk host.new) AnyHow }
    ensures cause { HasCause (H.faults host.old) (H.faults host.new) result }
    ensures say_faults { H.say_faults host.new ≡ H.say_faults host.old }
{
    host.make(Device::Log, pages)
}

// Makes one data volume.
fn make_volume<H: Host>(host: &mut H, volume: usize, blocks: u32) -> Result<(), Failed>
    requires few { volume < 8 }
    requires absent { H.tells → Each (H.disk host.old) (λ image. image (Data (volume + 1)) ≡ None) }
    ensures made { OnOk result (H.tells → (site : Site) → get_or site.volumes volume 0 ≡ blocks
        → Each (H.disk host.old) (HasZeroVolumes site volume)
        → Each (H.disk host.new) (HasZeroVolumes site (volume + 1))) }
    ensures goes { H.tells → Goes (H.disk host.old) (H.disk host.new) AnyHow }
    ensures cause { HasCause (H.faults host.old) (H.faults host.new) result }
    ensures say_faults { H.say_faults host.new ≡ H.say_faults host.old }
{
    host.make(Device::Data(volume as u8 + 1), blocks)
}

/// Makes the log volume and the data volumes, with zero bytes. After an error some of them are
/// there.
pub(crate) fn make_devices<H: Host>(
    host: &mut H,
    log_pages: u32,
    volumes: &ArrayVec<u32, 8>,
) -> Result<(), Failed>
    requires absent { H.tells → Each (H.disk host.old) IsEmpty }
    ensures made { OnOk result (H.tells → (birth : ℕ)
        → Each (H.disk host.new) (HasZeroVolumes
        (record { birth = birth; volumes = volumes.now.items; log_pages = log_pages })
        (length volumes.now.items))) }
    ensures goes { H.tells → Goes (H.disk host.old) (H.disk host.new) AnyHow }
    ensures cause { HasCause (H.faults host.old) (H.faults host.new) result }
    ensures say_faults { H.say_faults host.new ≡ H.say_faults host.old }
{
    make_log(host, log_pages)?;
    for i in 0..volumes.len() {
        make_volume(host, i, volumes[i])?;
    }
    Ok(())
}
