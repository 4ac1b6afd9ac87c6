//! Writing the converter's own pages.
ghost use Rattle.std.specs.Prelude.{◌≡◌, ℕ, ◌+◌, ◌*◌, ◌<◌, ◌≤◌};
ghost use Rattle.std.specs.Prelude.{length, sum, replicate, IfOk, OnOk, Some, get_or};
ghost use Rattle.mdb_model.specs.Causes.{HasCause};
ghost use Rattle.mdb_host.specs.Disk.{Disk, Calls};
ghost use Rattle.free_blocks.specs.Free.{IsFree, free_count};
ghost use Rattle.volume_disk.specs.Blocks.{IsArea, Writes, block_at};
ghost use Rattle.converter.specs.Maps.{Maps, entry_at, block_of, AreUnused};
ghost use Rattle.converter.specs.Tree.{HasLeafBytes, HasRootBytes, TakesBlock};

use crate::kept::LEAVES;
use crate::maps::{Converter, FrozenMap};
use arrayvec::ArrayVec;
use free_blocks::FreeBlocks;
use mdb_bytes::{
    ConverterEntry, ConverterLeaf, ConverterRoot, encode_converter_leaf, encode_converter_root,
};
use mdb_host::{Failed, Host};
use mdb_model::limits::PAGE_BYTES;
use volume_disk::Volumes;

impl Converter {
    // Gives an own page the least free block.
    fn take_own(&mut self, free: &mut FreeBlocks, map: &FrozenMap, place: usize) -> u32
        requires frozen { self.old.frozen_at ≡ Some map.now.savepoint }
        requires place { place < self.old.conv }
        requires area { length free.old ≡ length self.old.owner }
        requires some { 0 < free_count free.old }
        requires unused { AreUnused self.old free.old }
        // The result.
        ensures block { result ≡ block_of self.new.frozen place }
        ensures below { result < length self.old.owner }
        ensures took { TakesBlock self.old self.new free.old free.new place map.now.savepoint
            (block_of self.new.frozen place) }
    {
        // Opens the invariant of the maps.
        let _blocks = self.blocks();
        let Some(b) = free.take() else { unreachable!() };
        let entry = ConverterEntry {
            block: b,
            stamp: map.savepoint(),
        };
        self.set_own(place, entry, map.savepoint());
        b
    }

    // The blocks of the leaves of the frozen map.
    fn leaf_blocks(&self) -> ArrayVec<u32, LEAVES>
        ensures long { length result.items + 1 ≡ self.now.conv }
        ensures blocks { (i : ℕ) → i + 1 < self.now.conv
            → get_or result.items i 0 ≡ block_of self.now.frozen (i + 1) }
    {
        let mut blocks = ArrayVec::new();
        for i in 0..self.leaves() {
            blocks.push(self.frozen_own(i + 1));
        }
        blocks
    }

    // Spells leaf i of the frozen map.
    fn spell_leaf(&self, map: &FrozenMap, leaf: u32, page: &mut [u8; PAGE_BYTES])
        requires { leaf + 1 < self.now.conv }
        ensures { HasLeafBytes self.now.frozen self.now.conv leaf page.new }
    {
        let value = ConverterLeaf {
            leaf,
            savepoint: map.savepoint(),
            entries: self.frozen_run(leaf),
        };
        encode_converter_leaf(&value, page);
    }

    // Spells the root of the frozen map.
    fn spell_root(&self, map: &FrozenMap, page: &mut [u8; PAGE_BYTES])
        ensures { HasRootBytes self.now.frozen self.now.conv page.new }
    {
        // Opens the invariant of the maps.
        let _leaves = self.leaves();
        let value = ConverterRoot {
            savepoint: map.savepoint(),
            leaves: self.leaf_blocks(),
        };
        encode_converter_root(&value, page);
    }

    /// Writes a leaf of the frozen map to the least free block, which then is the leaf's. After an
    /// error the leaf has the block, and the block may hold any bytes.
    pub fn write_leaf<H: Host>(
        &mut self,
        host: &mut H,
        volumes: &Volumes,
        free: &mut FreeBlocks,
        map: &FrozenMap,
        leaf: u32,
    ) -> Result<(), Failed>
        requires frozen { self.old.frozen_at ≡ Some map.now.savepoint }
        requires leaf { leaf + 1 < self.old.conv }
        requires area { (length free.old ≡ length self.old.owner)
            × (sum volumes.now ≡ length self.old.owner) }
        requires some { 0 < free_count free.old }
        requires unused { AreUnused self.old free.old }
        requires there { H.tells → IsArea volumes.now (H.disk host.old).seen }
        ensures took { TakesBlock self.old self.new free.old free.new (leaf + 1) map.now.savepoint
            (block_of self.new.frozen (leaf + 1)) }
        ensures calls { H.tells
            → Calls (H.disk host.old) (H.disk host.new)
            (Writes volumes.now (λ b. b ≡ block_of self.new.frozen (leaf + 1))) }
        ensures written { OnOk result
            (H.tells
            → HasLeafBytes self.new.frozen self.new.conv leaf
            (block_at volumes.now (H.disk host.new).seen
            (block_of self.new.frozen (leaf + 1)))) }
        ensures cause { HasCause (H.faults host.old) (H.faults host.new) result }
        ensures say_faults { H.say_faults host.new ≡ H.say_faults host.old }
    {
        let mut page = [0u8; PAGE_BYTES];
        self.spell_leaf(map, leaf, &mut page);
        let b = self.take_own(free, map, leaf as usize + 1);
        volumes.write_block(host, b, &page)
    }

    /// Writes the root of the frozen map to the least free block, which then is the root's. After
    /// an error the root has the block, and the block may hold any bytes.
    pub fn write_root<H: Host>(
        &mut self,
        host: &mut H,
        volumes: &Volumes,
        free: &mut FreeBlocks,
        map: &FrozenMap,
    ) -> Result<u32, Failed>
        requires frozen { self.old.frozen_at ≡ Some map.now.savepoint }
        requires area { (length free.old ≡ length self.old.owner)
            × (sum volumes.now ≡ length self.old.owner) }
        requires some { 0 < free_count free.old }
        requires unused { AreUnused self.old free.old }
        requires there { H.tells → IsArea volumes.now (H.disk host.old).seen }
        ensures root { IfOk result (λ b. b ≡ block_of self.new.frozen 0) }
        ensures took { TakesBlock self.old self.new free.old free.new 0 map.now.savepoint
            (block_of self.new.frozen 0) }
        ensures calls { H.tells
            → Calls (H.disk host.old) (H.disk host.new)
            (Writes volumes.now (λ b. b ≡ block_of self.new.frozen 0)) }
        ensures written { OnOk result
            (H.tells
            → HasRootBytes self.new.frozen self.new.conv
            (block_at volumes.now (H.disk host.new).seen (block_of self.new.frozen 0))) }
        ensures cause { HasCause (H.faults host.old) (H.faults host.new) result }
        ensures say_faults { H.say_faults host.new ≡ H.say_faults host.old }
    {
        let mut page = [0u8; PAGE_BYTES];
        self.spell_root(map, &mut page);
        let b = self.take_own(free, map, 0);
        volumes.write_block(host, b, &page)?;
        Ok(b)
    }
}
