//! A host in memory that tells nothing, as one over files.
ghost use Rattle.std.specs.Prelude.{◌≡◌, ◌≤◌, IfOk};
ghost use Rattle.mdb_model.specs.Causes.{Rose};

use crate::{try_make, try_read, try_remove, try_sync, try_write};
use mdb_host::{Device, Failed, Host, MemHost};
use std::alloc::Global;

/// A host in memory that does not tell what it holds. A call that does not fit the devices fails.
#[derive(Drop)]
pub struct MuteHost {
    host: MemHost,
    faults: u64,
    say_faults: u64,
}

// Counts a fault.
fn missed(count: &mut u64) -> Failed
    ensures rose { Rose count.old count.new }
    ensures later { count.old ≤ count.new }
{
    *count = count.saturating_add(1);
    Failed
}

impl MuteHost {
    /// Over these devices.
    pub fn new(host: MemHost) -> MuteHost
        ensures faults { ⟦<MuteHost as Host>⟧.faults result ≡ 0 }
        ensures say_faults { ⟦<MuteHost as Host>⟧.say_faults result ≡ 0 }
    {
        MuteHost {
            host,
            faults: 0,
            say_faults: 0,
        }
    }

    /// The devices and the output, for a test that looks behind this host.
    pub fn told(&self) -> &MemHost {
        &self.host
    }
}

impl Host for MuteHost {
    ghost use Rattle.std.specs.Prelude.{[], None};
    ghost use Rattle.mdb_host.specs.Disk.{Disk};

    ghost tells = { ⊥ };

    ghost disk = { λ m. record {
      now = 0;
      seen = λ d. None;
      may_leave = λ t image. ⊥;
      said = λ t. [];
    } };

    ghost faults = { λ m. m.faults };

    ghost say_faults = { λ m. m.say_faults };

    ghost seen_left = { λ m told. absurd told };

    ghost sizes = { λ m image told left. absurd told };

    fn size(&self, device: Device) -> Option<u64> {
        self.host.size(device)
    }

    fn read(&mut self, device: Device, at: u64, into: &mut [u8]) -> Result<(), Failed> {
        let Ok(()) = try_read(&mut self.host, device, at, into) else {
            return Err(missed(&mut self.faults));
        };
        Ok(())
    }

    fn write(&mut self, device: Device, at: u64, from: &[u8]) -> Result<(), Failed> {
        let Ok(()) = try_write(&mut self.host, device, at, from) else {
            return Err(missed(&mut self.faults));
        };
        Ok(())
    }

    fn sync(&mut self, device: Device) -> Result<(), Failed> {
        let Ok(()) = try_sync(&mut self.host, device) else {
            return Err(missed(&mut self.faults));
        };
        Ok(())
    }

    fn make(&mut self, device: Device, pages: u32) -> Result<(), Failed> {
        let Ok(()) = try_make(&mut self.host, device, pages) else {
            return Err(missed(&mut self.faults));
        };
        Ok(())
    }

    fn remove(&mut self, device: Device) -> Result<(), Failed> {
        let Ok(()) = try_remove(&mut self.host, device) else {
            return Err(missed(&mut self.faults));
        };
        Ok(())
    }

    fn say(&mut self, text: &[u8]) -> Result<(), Failed> {
        let Ok(()) = self.host.say(text) else {
            return Err(missed(&mut self.say_faults));
        };
        Ok(())
    }
}

// What a new data area without a page has beside zeros and its number of blocks, and where: the
// restart record, whose gate is open, a leaf of the converter on block 2, and its root on block 3.
const FIRST_BYTES: [(u64, &'static [u8]); 10] = [
    (0, b"MDBKREST\0\0\0\x01"),
    (23, b"\x01"),
    (31, b"\x07"),
    (39, b"\x01"),
    (47, b"\x01"),
    (67, b"\x03\0\0\0\x01"),
    (8191, b"\x4F"),
    (16384, b"MDBKCONL\0\0\0\0\0\0\x02\x58\0\0\0\0\0\0\0\x01"),
    (24576, b"MDBKCONR\0\0\0\0\0\0\0\x01\0\0\0\x01"),
    (24643, b"\x02"),
];

// Where the record has the number of blocks.
const BLOCKS_AT: u64 = 72;

/// A host whose one data volume is a new area of so many blocks, 64 to 600, written and synced. It
/// fails where memory runs out.
pub fn new_area(alloc: Global, blocks: u32) -> Result<MuteHost, Failed> {
    let Ok(host) = MemHost::new(alloc, &[]) else {
        return Err(Failed);
    };
    let mut host = MuteHost::new(host);
    let volume = Device::Data(1);
    try_make(&mut host, volume, blocks)?;
    for (at, bytes) in FIRST_BYTES {
        try_write(&mut host, volume, at, bytes)?;
    }
    try_write(&mut host, volume, BLOCKS_AT, &blocks.to_be_bytes())?;
    try_sync(&mut host, volume)?;
    Ok(host)
}
