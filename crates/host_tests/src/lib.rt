//! For tests of what calls a host: calls that no caller can misuse, and a host that tells nothing.
#![tactic(auto)]

ghost use Rattle.std.specs.Prelude.{◌≡◌, ◌≤◌, ℕ, None, IsTrue};
ghost use Rattle.mdb_host.specs.Disk.{IsWithin, IsThere};

use mdb_host::{Device, Failed, Host};

mod mute;

pub use mute::{MuteHost, new_area};

fn has_room<H: Host>(host: &H, device: Device, at: u64, len: usize) -> bool
    ensures bounded { IsTrue result → len ≤ 8192 }
    ensures within { IsTrue result → H.tells → IsWithin (H.disk host.now).seen device at len }
{
    let Some(pages) = host.size(device) else {
        return false;
    };
    let Some(size) = pages.checked_mul(8192) else {
        return false;
    };
    len <= 8192 && at <= size && len as u64 <= size - at
}

/// Reads where the range lies in the device, and fails elsewhere.
pub fn try_read<H: Host>(
    host: &mut H,
    device: Device,
    at: u64,
    into: &mut [u8],
) -> Result<(), Failed> {
    if !has_room(host, device, at, into.len()) {
        return Err(Failed);
    }
    host.read(device, at, into)
}

/// Writes where the range lies in the device, and fails elsewhere.
pub fn try_write<H: Host>(
    host: &mut H,
    device: Device,
    at: u64,
    from: &[u8],
) -> Result<(), Failed> {
    if !has_room(host, device, at, from.len()) {
        return Err(Failed);
    }
    host.write(device, at, from)
}

/// Syncs a device that is there, and fails where it is absent.
pub fn try_sync<H: Host>(host: &mut H, device: Device) -> Result<(), Failed> {
    if host.size(device).is_none() {
        return Err(Failed);
    }
    host.sync(device)
}

/// Makes a device that is absent, and fails where it is there.
pub fn try_make<H: Host>(host: &mut H, device: Device, pages: u32) -> Result<(), Failed> {
    if host.size(device).is_some() {
        return Err(Failed);
    }
    host.make(device, pages)
}

/// Removes a device that is there, and fails where it is absent.
pub fn try_remove<H: Host>(host: &mut H, device: Device) -> Result<(), Failed> {
    if host.size(device).is_none() {
        return Err(Failed);
    }
    host.remove(device)
}
