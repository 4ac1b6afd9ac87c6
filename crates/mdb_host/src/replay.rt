//! Calls that were kept, done again to see what a crash after them may leave.
ghost use Rattle.std.specs.Prelude.{◌≡◌, ◌+◌, ◌<◌, ◌≤◌, ◌^◌, ◌∷◌, length, IfOk, OnOk};
ghost use Rattle.mdb_host.specs.Memory.{image_of, zeros, digit, by_digit, picked};

use crate::call::{Call, Range, is_settled};
use crate::devices::Devices;
use std::alloc::{AllocError, Global};

/// The bytes of a device that was just made.
pub fn zeros_of(alloc: Global, pages: u32) -> Result<Vec<u8>, AllocError>
    ensures { IfOk result (λ bytes. bytes.items ≡ zeros pages) }
{
    vec![in alloc; 0; 8192 * pages as usize]
}

fn digit_of(pick: u64, ranges: usize) -> u64
    ensures { result ≡ digit pick ranges }
{
    pick / 4u64.pow((ranges % 32) as u32) % 4
}

// What a crash left of a range that was not synced.
fn tear(devices: &mut Devices, alloc: Global, range: &Range, digit: u64) -> Result<(), AllocError>
    ensures { OnOk result (image_of devices.new.slots.items
        ≡ by_digit digit range.now (image_of devices.old.slots.items)) }
{
    let len = range.bytes.len();
    if digit == 0 {
        return Ok(());
    }
    if digit == 1 {
        devices.write(range.device, range.at, &range.bytes);
        return Ok(());
    }
    let byte = if digit == 2 { 0x4F } else { 0x00 };
    let bytes = vec![in alloc; byte; len]?;
    devices.write(range.device, range.at, &bytes);
    Ok(())
}

// Does a call again, where so many ranges that are not synced were met before.
fn call_again(
    devices: &mut Devices,
    alloc: Global,
    call: &Call,
    later: &[Call],
    pick: u64,
    ranges: usize,
) -> Result<usize, AllocError>
    requires { ranges < 2 ^ 63 }
    ensures image { IfOk result (λ k. picked pick k later.now (image_of devices.new.slots.items)
        ≡ picked pick ranges (call.now ∷ later.now) (image_of devices.old.slots.items)) }
    ensures count { IfOk result (λ k. k ≤ ranges + 1) }
{
    match call {
        Call::Wrote(range) if is_settled(later, range.device) => {
            devices.write(range.device, range.at, &range.bytes);
            Ok(ranges)
        }
        Call::Tore(range) if is_settled(later, range.device) => Ok(ranges),
        Call::Wrote(range) | Call::Tore(range) => {
            tear(devices, alloc, range, digit_of(pick, ranges))?;
            Ok(ranges + 1)
        }
        Call::Made(device, pages) => {
            devices.set(*device, Some(zeros_of(alloc, *pages)?));
            Ok(ranges)
        }
        Call::Removed(device) => {
            devices.set(*device, None);
            Ok(ranges)
        }
        Call::Synced(_) | Call::Said(_) | Call::Idle => Ok(ranges),
    }
}

/// Turns the devices from what they held before these calls into what a crash after them may leave.
/// The k-th range that is not synced, from 0 in order of writing, holds by digit `k mod 32` of
/// `pick` in base 4: 0 its old bytes, 1 its new bytes, 2 only 0x4F, 3 only 0x00.
pub fn replay(
    devices: &mut Devices,
    alloc: Global,
    calls: &[Call],
    pick: u64,
) -> Result<(), AllocError>
    requires { length calls.now < 2 ^ 63 }
    ensures { OnOk result (image_of devices.new.slots.items
        ≡ picked pick 0 calls.now (image_of devices.old.slots.items)) }
{
    let mut ranges = 0;
    let mut left = calls;
    while let Some((call, later)) = left.split_first() {
        ranges = call_again(devices, alloc, call, later, pick, ranges)?;
        left = later;
    }
    Ok(())
}
