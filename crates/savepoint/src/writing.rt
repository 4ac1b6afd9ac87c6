//! Writing the changed leaves and the root of the frozen map.
ghost use Rattle.std.specs.Prelude.{◌≡◌, ◌⊎◌, ℕ, ◌+◌, ◌-◌, ◌*◌, ◌<◌, ◌≤◌};
ghost use Rattle.std.specs.Prelude.{length, sum, IfOk, OnOk, Some};
ghost use Rattle.mdb_model.specs.Causes.{HasCause};
ghost use Rattle.mdb_model.specs.Images.{Image};
ghost use Rattle.mdb_host.specs.Disk.{Disk, Goes, Agree};
ghost use Rattle.free_blocks.specs.Free.{IsFree, free_count};
ghost use Rattle.volume_disk.specs.Blocks.{IsArea, Writes, block_at, IsDurable};
ghost use Rattle.converter.specs.Maps.{Maps, IsSoundMaps, entry_at, block_of, AreUnused};
ghost use Rattle.converter.specs.Tree.{HasLeafBytes, HasRootBytes, HasTree};
ghost use Rattle.savepoint.specs.Calls.{MayWriteConverter, WritesConverter};
ghost use Rattle.savepoint.specs.Stands.{IsMapPlaced};
ghost use Rattle.converter.specs.Own.{OwnOnly, Fewer, TakesForFrozen, OneOwn, HasLeavesBytes, SavedLeaves};

use converter::{Converter, FrozenMap};
use free_blocks::FreeBlocks;
use mdb_host::{Failed, Host};
use volume_disk::Volumes;

// Writes one leaf where it changed.
fn write_changed<H: Host>(
    map: &FrozenMap,
    host: &mut H,
    volumes: &Volumes,
    converter: &mut Converter,
    free: &mut FreeBlocks,
    leaf: u32,
) -> Result<(), Failed>
    requires frozen { converter.old.frozen_at ≡ Some map.now.savepoint }
    requires leaf { leaf + 1 < converter.old.conv }
    requires area { (length free.old ≡ length converter.old.owner)
        × (sum volumes.now ≡ length converter.old.owner) }
    requires some { 0 < free_count free.old }
    requires unused { AreUnused converter.old free.old }
    requires later { entry_at converter.old.frozen (leaf + 1)
        ≡ entry_at converter.old.saved (leaf + 1) }
    requires there { H.tells → IsArea volumes.now (H.disk host.old).seen }
    requires saved { H.tells
        → SavedLeaves converter.old (block_at volumes.now (H.disk host.old).seen) }
    ensures one { OneOwn converter.old converter.new free.old free.new (leaf + 1) }
    ensures goes { H.tells
        → Goes (H.disk host.old) (H.disk host.new) (Writes volumes.now (IsFree free.old)) }
    ensures seen { H.tells
        → Writes volumes.now (IsFree free.old) (H.disk host.old).seen (H.disk host.new).seen }
    ensures held { OnOk result
        (H.tells
        → HasLeafBytes converter.new.frozen converter.new.conv leaf
        (block_at volumes.now (H.disk host.new).seen
        (block_of converter.new.frozen (leaf + 1)))) }
    ensures placed { 1 < block_of converter.new.frozen (leaf + 1) }
    ensures sound { IsSoundMaps converter.old }
    ensures cause { HasCause (H.faults host.old) (H.faults host.new) result }
    ensures say_faults { H.say_faults host.new ≡ H.say_faults host.old }
{
    if converter.leaf_changed(map, leaf) {
        return converter.write_leaf(host, volumes, free, map, leaf);
    }
    Ok(())
}

// Writes each leaf that changed.
fn write_leaves<H: Host>(
    map: &FrozenMap,
    host: &mut H,
    volumes: &Volumes,
    converter: &mut Converter,
    free: &mut FreeBlocks,
) -> Result<(), Failed>
    requires may { MayWriteConverter H.tells volumes.now converter.old free.old
        map.now.savepoint (H.disk host.old).seen }
    requires room { converter.old.conv ≤ free_count free.old + 1 }
    ensures placed { OnOk result
        ((q : ℕ) → 0 < q → q < converter.new.conv → 1 < block_of converter.new.frozen q) }
    ensures own { OwnOnly converter.old converter.new }
    ensures fewer { Fewer free.old free.new (converter.old.conv - 1) }
    ensures unused { AreUnused converter.new free.new }
    ensures taken { TakesForFrozen 1 free.old free.new converter.new }
    ensures goes { H.tells
        → Goes (H.disk host.old) (H.disk host.new) (Writes volumes.now (IsFree free.old)) }
    ensures seen { H.tells
        → Writes volumes.now (IsFree free.old) (H.disk host.old).seen (H.disk host.new).seen }
    ensures held { OnOk result
        (H.tells
        → HasLeavesBytes converter.new (converter.new.conv - 1)
        (block_at volumes.now (H.disk host.new).seen)) }
    ensures cause { HasCause (H.faults host.old) (H.faults host.new) result }
    ensures say_faults { H.say_faults host.new ≡ H.say_faults host.old }
{
    for leaf in 0..converter.leaves() {
        write_changed(map, host, volumes, converter, free, leaf)?;
    }
    Ok(())
}

// Writes the changed leaves and the root.
fn write_tree<H: Host>(
    map: &FrozenMap,
    host: &mut H,
    volumes: &Volumes,
    converter: &mut Converter,
    free: &mut FreeBlocks,
) -> Result<u32, Failed>
    requires may { MayWriteConverter H.tells volumes.now converter.old free.old
        map.now.savepoint (H.disk host.old).seen }
    requires room { converter.old.conv ≤ free_count free.old }
    ensures root { IfOk result (λ r. r ≡ block_of converter.new.frozen 0) }
    ensures writes { WritesConverter H.tells volumes.now converter.old converter.new free.old
        free.new (H.disk host.old) (H.disk host.new) result }
    ensures held { OnOk result
        (H.tells
        → HasTree converter.new.frozen converter.new.conv
        (block_at volumes.now (H.disk host.new).seen)) }
    ensures cause { HasCause (H.faults host.old) (H.faults host.new) result }
    ensures say_faults { H.say_faults host.new ≡ H.say_faults host.old }
{
    write_leaves(map, host, volumes, converter, free)?;
    // Opens the invariant of the maps.
    let _old = converter.leaves();
    let root = converter.write_root(host, volumes, free, map);
    // Opens the invariant of the maps.
    let _new = converter.leaves();
    root
}

// Writes the changed leaves and the root durably.
pub(crate) fn write_settled<H: Host>(
    map: &FrozenMap,
    host: &mut H,
    volumes: &Volumes,
    converter: &mut Converter,
    free: &mut FreeBlocks,
) -> Result<u32, Failed>
    requires may { MayWriteConverter H.tells volumes.now converter.old free.old
        map.now.savepoint (H.disk host.old).seen }
    requires room { converter.old.conv ≤ free_count free.old }
    ensures root { IfOk result (λ r. r ≡ block_of converter.new.frozen 0) }
    ensures writes { WritesConverter H.tells volumes.now converter.old converter.new free.old
        free.new (H.disk host.old) (H.disk host.new) result }
    ensures held { OnOk result
        (H.tells → (image : Image) → (H.disk host.new).may_leave (H.disk host.new).now image
        → HasTree converter.new.frozen converter.new.conv (block_at volumes.now image)) }
    ensures cause { HasCause (H.faults host.old) (H.faults host.new) result }
    ensures say_faults { H.say_faults host.new ≡ H.say_faults host.old }
{
    let root = write_tree(map, host, volumes, converter, free)?;
    // Opens the invariant of the maps.
    let _count = converter.leaves();
    volumes.sync_all(host)?;
    Ok(root)
}
