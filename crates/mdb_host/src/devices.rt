//! The bytes of devices in memory.
ghost use Rattle.std.specs.Prelude.{◌≡◌, ℕ, ◌<◌, ◌≤◌, length, take, drop, replicate, Option, Some, None, IfOk};
ghost use Rattle.mdb_model.specs.Images.{bytes_of, size_of};
ghost use Rattle.mdb_host.specs.Disk.{IsWithin};
ghost use Rattle.mdb_host.specs.Memory.{code, content, image_of, written_over, put, with_device};

use mdb_model::fault::Device;
use std::alloc::{AllocError, Global};

/// One slot for each device that can be named.
const SLOTS: usize = 513;

/// What each device holds.
#[derive(Drop)]
pub struct Devices {
    slots: Vec<Option<Vec<u8>>>,
    ghost full: { length slots.items ≡ 513 },
}

/// The number of a device's slot.
pub fn slot_of(device: Device) -> usize
    ensures slot { result ≡ code device }
    ensures below { result < 513 }
{
    match device {
        Device::Log => 0,
        Device::Data(number) => 2 * usize::from(number) + 1,
        Device::Medium(number) => 2 * usize::from(number) + 2,
    }
}

fn copy_slot(alloc: Global, slot: &Option<Vec<u8>>) -> Result<Option<Vec<u8>>, AllocError>
    ensures { IfOk result (λ copy. content copy ≡ content slot.now) }
{
    match slot {
        None => Ok(None),
        Some(bytes) => Ok(Some(Vec::from_slice(alloc, bytes)?)),
    }
}

// Bytes that have no room are left out.
fn write_over(bytes: &mut Vec<u8>, at: u64, from: &[u8])
    ensures { Some bytes.new.items ≡ written_over at from.now (Some bytes.old.items) }
{
    let at = at as usize;
    if from.len() <= bytes.len() && at <= bytes.len() - from.len() {
        bytes[at..at + from.len()].copy_from_slice(from);
    }
}

impl Devices {
    /// No device is there.
    pub fn new(alloc: Global) -> Result<Devices, AllocError>
        ensures { IfOk result (λ devices. image_of devices.slots.items ≡ (λ d. None)) }
    {
        let mut slots = Vec::with_capacity(alloc, SLOTS)?;
        for _ in 0..SLOTS {
            slots.push(None)?;
        }
        Ok(Devices { slots })
    }

    pub fn copy(&self, alloc: Global) -> Result<Devices, AllocError>
        ensures { IfOk result (λ devices. image_of devices.slots.items
            ≡ image_of self.now.slots.items) }
    {
        let mut slots = Vec::with_capacity(alloc, SLOTS)?;
        for slot in &self.slots {
            slots.push(copy_slot(alloc, slot)?)?;
        }
        Ok(Devices { slots })
    }

    /// How many bytes a device has.
    pub fn size(&self, device: Device) -> Option<usize>
        ensures { result ≡ size_of (image_of self.now.slots.items device) }
    {
        match &self.slots[slot_of(device)] {
            None => None,
            Some(bytes) => Some(bytes.len()),
        }
    }

    pub fn read(&self, device: Device, at: u64, into: &mut [u8])
        requires { IsWithin (image_of self.now.slots.items) device at (length into.old) }
        ensures { into.new ≡ take (length into.old)
            (drop at (bytes_of (image_of self.now.slots.items device))) }
    {
        if let Some(bytes) = &self.slots[slot_of(device)] {
            let at = at as usize;
            into.copy_from_slice(&bytes[at..at + into.len()]);
        }
    }

    pub fn write(&mut self, device: Device, at: u64, from: &[u8])
        ensures { image_of self.new.slots.items
            ≡ put device at from.now (image_of self.old.slots.items) }
    {
        if let Some(bytes) = &mut self.slots[slot_of(device)] {
            write_over(bytes, at, from);
        }
    }

    /// From now on a device holds these bytes, or is absent.
    pub fn set(&mut self, device: Device, bytes: Option<Vec<u8>>)
        ensures { image_of self.new.slots.items
            ≡ with_device device (content bytes) (image_of self.old.slots.items) }
    {
        self.slots[slot_of(device)] = bytes;
    }
}
