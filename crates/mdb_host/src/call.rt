//! What a host in memory keeps of each call.
ghost use Rattle.std.specs.Prelude.{◌≡◌};
ghost use Rattle.mdb_host.specs.Memory.{settles, any_settles};

use crate::devices::slot_of;
use mdb_model::fault::Device;

/// Bytes that a call was to put on a device from byte `at` on.
#[derive(Drop)]
pub struct Range {
    pub device: Device,
    pub at: u64,
    pub bytes: Vec<u8>,
}

/// A call that was kept.
#[derive(Drop)]
pub enum Call {
    /// A read gives the bytes of the range from then on.
    Wrote(Range),
    /// A write that failed: a read gives what it gave, a crash may leave anything in the range.
    Tore(Range),
    Synced(Device),
    /// A device of so many pages came to be.
    Made(Device, u32),
    Removed(Device),
    Said(Vec<u8>),
    /// A read, or a call that failed and changed nothing.
    Idle,
}

/// Whether after the call no range that was written to the device before is unsynced.
pub fn is_settling(call: &Call, device: Device) -> bool
    ensures { result ≡ settles call.now device }
{
    match call {
        Call::Wrote(_) | Call::Tore(_) | Call::Said(_) | Call::Idle => false,
        Call::Synced(named) | Call::Made(named, _) | Call::Removed(named) => {
            slot_of(*named) == slot_of(device)
        }
    }
}

/// The same of some call of these.
pub fn is_settled(calls: &[Call], device: Device) -> bool
    ensures { result ≡ any_settles calls.now device }
{
    let mut left = calls;
    while let Some((call, later)) = left.split_first() {
        if is_settling(call, device) {
            return true;
        }
        left = later;
    }
    false
}
