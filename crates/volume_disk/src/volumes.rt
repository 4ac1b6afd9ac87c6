//! The data volumes as one row of blocks.
ghost use Rattle.std.specs.Prelude.{◌≡◌, ◌+◌, ◌<◌, ◌≤◌};
ghost use Rattle.std.specs.Prelude.{length, sum, OnOk};
ghost use Rattle.mdb_model.specs.Causes.{HasCause};
ghost use Rattle.mdb_model.specs.declared.limits.TheConstants.{MOST_BLOCKS};
ghost use Rattle.mdb_host.specs.Disk.{Calls, Goes, Agree};
ghost use Rattle.volume_disk.specs.Blocks.{place, block_at, IsArea, Writes, IsDurable};

use arrayvec::ArrayVec;
use mdb_host::{Device, Failed, Host};
use mdb_model::limits::PAGE_BYTES;
use std::marker::Model;

/// The data volumes, `Data(1)` and on, as one row of blocks of 8,192 bytes: block b lies in the
/// first volume that ends past it. It is seen as the list of the volumes' sizes in blocks.
#[derive(Drop)]
pub struct Volumes {
    sizes: ArrayVec<u32, 8>,
    blocks: u32,
}

impl Model for Volumes {
    ghost use Rattle.std.specs.Prelude.{List, ℕ, length, ◌≤◌};
    ghost use Rattle.volume_disk.specs.Blocks.{IsCounted};

    ghost Value = { List ℕ };

    ghost view = { λ s. s.sizes.items };

    ghost invariant = { λ s. IsCounted s.sizes.items s.blocks };
}

impl Volumes {
    /// The row of volumes of these sizes, in blocks.
    pub fn new(sizes: &ArrayVec<u32, 8>) -> Volumes
        requires { sum sizes.now.items ≤ MOST_BLOCKS }
        ensures { result ≡ sizes.now.items }
    {
        let mut own = ArrayVec::new();
        let mut blocks = 0;
        for n in sizes.as_slice() {
            own.push(*n);
            blocks += *n;
        }
        Volumes { sizes: own, blocks }
    }

    /// How many blocks all volumes have together.
    pub fn blocks(&self) -> u32
        ensures count { result ≡ sum self.now }
        ensures bound { sum self.now ≤ MOST_BLOCKS }
        ensures volumes { length self.now ≤ 8 }
    {
        self.blocks
    }

    /// The volume of a block, from 1 on, and the page there.
    pub fn place_of(&self, block: u32) -> (u8, u32)
        requires { block < sum self.now }
        ensures volume { result.0 ≡ (place 1 self.now block).0 }
        ensures page { result.1 ≡ (place 1 self.now block).1 }
    {
        let mut rest = block;
        let mut volume = 1;
        for n in self.sizes.as_slice() {
            if rest < *n {
                return (volume, rest);
            }
            rest -= *n;
            volume += 1;
        }
        unreachable!()
    }

    /// Reads one block. After an error `into` may hold any bytes.
    pub fn read_block<H: Host>(
        &self,
        host: &mut H,
        block: u32,
        into: &mut [u8; PAGE_BYTES],
    ) -> Result<(), Failed>
        requires below { block < sum self.now }
        requires area { H.tells → IsArea self.now (H.disk host.old).seen }
        ensures bytes { OnOk result
            (H.tells → into.new ≡ block_at self.now (H.disk host.old).seen block) }
        ensures calls { H.tells → Calls (H.disk host.old) (H.disk host.new) Agree }
        ensures cause { HasCause (H.faults host.old) (H.faults host.new) result }
        ensures say_faults { H.say_faults host.new ≡ H.say_faults host.old }
    {
        let (volume, page) = self.place_of(block);
        host.read(Device::Data(volume), PAGE_BYTES as u64 * page as u64, into)
    }

    /// Writes one block. Until a sync, a crash may leave any bytes there; after an error, a read
    /// may give any.
    pub fn write_block<H: Host>(
        &self,
        host: &mut H,
        block: u32,
        from: &[u8; PAGE_BYTES],
    ) -> Result<(), Failed>
        requires below { block < sum self.now }
        requires area { H.tells → IsArea self.now (H.disk host.old).seen }
        ensures calls { H.tells
            → Calls (H.disk host.old) (H.disk host.new) (Writes self.now (λ c. c ≡ block)) }
        ensures written { OnOk result
            (H.tells → block_at self.now (H.disk host.new).seen block ≡ from.now) }
        ensures cause { HasCause (H.faults host.old) (H.faults host.new) result }
        ensures say_faults { H.say_faults host.new ≡ H.say_faults host.old }
    {
        let (volume, page) = self.place_of(block);
        host.write(Device::Data(volume), PAGE_BYTES as u64 * page as u64, from)
    }

    /// Makes the devices keep every block: after it, a crash leaves of each what a read gives.
    /// After an error it does so of some volumes, and nothing is known of which.
    pub fn sync_all<H: Host>(&self, host: &mut H) -> Result<(), Failed>
        requires { H.tells → IsArea self.now (H.disk host.old).seen }
        ensures goes { H.tells → Goes (H.disk host.old) (H.disk host.new) Agree }
        ensures seen { H.tells → Agree (H.disk host.old).seen (H.disk host.new).seen }
        ensures moments { H.tells
            → (H.disk host.new).now ≤ (H.disk host.old).now + length self.now }
        ensures settled { OnOk result (H.tells → IsDurable self.now (H.disk host.new)) }
        ensures cause { HasCause (H.faults host.old) (H.faults host.new) result }
        ensures say_faults { H.say_faults host.new ≡ H.say_faults host.old }
    {
        for i in 0..self.sizes.len() {
            host.sync(Device::Data(i as u8 + 1))?;
        }
        Ok(())
    }
}
