//! Reading the map of the last savepoint.
ghost use Rattle.std.specs.Prelude.{◌≡◌, ◌⊎◌, ◌↔◌, ℕ, ◌+◌, ◌-◌, ◌*◌, ◌<◌, ◌≤◌, ◌^◌};
ghost use Rattle.std.specs.Prelude.{List, length, sum, replicate, get_or, IfOk, IfErr, OnOk, OnErr};
ghost use Rattle.std.specs.Prelude.{Err, IsTrue, MatchOption, None};
ghost use Rattle.mdb_model.specs.Causes.{Rose};
ghost use Rattle.mdb_host.specs.Disk.{Disk};
ghost use Rattle.mdb_host.specs.Reads.{ReadsOnly};
ghost use Rattle.mdb_bytes.specs.ConverterPages.{converter_entry_fits};
ghost use Rattle.mdb_bytes.specs.Firsts.{no_entry};
ghost use Rattle.volume_disk.specs.Blocks.{IsArea, block_at};
ghost use Rattle.converter.specs.Maps.{Maps, IsSoundMaps, entry_at, block_of, IsUsed};
ghost use Rattle.converter.specs.Maps.{empty_maps, with_loaded};
ghost use Rattle.converter.specs.Tree.{IsLeafOf, IsRootOf};
ghost use Rattle.converter.specs.Loads.{IsOff, IsRead, IsLoading, named, BreaksRoot, BreaksRow};
ghost use Rattle.converter.specs.Loads.{Breaks, Admitted, IsEntryRefused, FaultReports, row_of, TakesLeaf};
ghost use Rattle.converter.specs.Loads.{RefusesLeaf, IsUnderWay, ReadsMap};

use crate::kept::{NO_ENTRY, PAGES};
use crate::maps::Converter;
use mdb_bytes::{
    ConverterEntry, ConverterLeaf, ConverterRoot, decode_converter_leaf, decode_converter_root,
};
use mdb_host::{Device, Host};
use mdb_model::fault::{Damage, PageFault, Rule};
use mdb_model::limits::PAGE_BYTES;
use volume_disk::Volumes;

// A rule that a block breaks.
fn broken(volumes: &Volumes, block: u32, rule: Rule) -> PageFault
    requires { block < sum volumes.now }
    ensures { result ≡ PageFault.Damaged (named volumes.now block rule) }
{
    let (volume, page) = volumes.place_of(block);
    PageFault::Damaged(Damage {
        device: Device::Data(volume),
        page,
        rule,
    })
}

// Whether no page stands in the entries from one on.
fn none_from(entries: &[ConverterEntry; PAGES], from: usize) -> bool
    ensures { IsTrue result ↔ ((k : ℕ) → k < 600 → from ≤ k → entry_at entries.now k ≡ no_entry) }
{
    for k in 0..PAGES {
        if k >= from && entries[k] != NO_ENTRY {
            return false;
        }
    }
    true
}

// The leaf of this number that the bytes spell.
fn leaf_in(bytes: &[u8; PAGE_BYTES], leaf: u32, blocks: u32) -> Option<ConverterLeaf>
    requires { leaf < 110 }
    ensures { MatchOption result ((v : ConverterLeaf) → IsLeafOf blocks leaf bytes.now v → ⊥)
        (IsLeafOf blocks leaf bytes.now) }
{
    let value = decode_converter_leaf(bytes)?;
    if value.leaf != leaf {
        return None;
    }
    let pages = (blocks as usize).saturating_sub(PAGES * leaf as usize);
    if none_from(&value.entries, pages) {
        Some(value)
    } else {
        None
    }
}

// The root with this number of leaves that the bytes spell.
fn root_in(bytes: &[u8; PAGE_BYTES], leaves: u32) -> Option<ConverterRoot>
    ensures { MatchOption result ((v : ConverterRoot) → IsRootOf (leaves + 1) bytes.now v → ⊥)
        (IsRootOf (leaves + 1) bytes.now) }
{
    let value = decode_converter_root(bytes)?;
    if value.leaves.len() == leaves as usize {
        Some(value)
    } else {
        None
    }
}

// Reads the root.
fn read_root<H: Host>(
    host: &mut H,
    volumes: &Volumes,
    root: u32,
    leaves: u32,
) -> Result<ConverterRoot, PageFault>
    requires below { root < sum volumes.now }
    requires there { H.tells → IsArea volumes.now (H.disk host.old).seen }
    // The result.
    ensures is { IfOk result
        (λ value. (bytes : List ℕ) × IsRootOf (leaves + 1) bytes value
        × (H.tells → bytes ≡ block_at volumes.now (H.disk host.old).seen root)) }
    ensures broken { IfErr result
        (FaultReports
        (λ damage. H.tells
        → BreaksRoot volumes.now (leaves + 1) root
        (block_at volumes.now (H.disk host.old).seen) damage)) }
    // The devices.
    ensures reads { ReadsOnly H.Host host.old host.new }
    // The faults.
    ensures cause { result ≡ Err PageFault.Failed → Rose (H.faults host.old) (H.faults host.new) }
{
    let mut page = [0u8; PAGE_BYTES];
    let Ok(()) = volumes.read_block(host, root, &mut page) else {
        return Err(PageFault::Failed);
    };
    let Some(value) = root_in(&page, leaves) else {
        return Err(broken(volumes, root, Rule::ConverterRoot));
    };
    Ok(value)
}

impl Converter {
    // Puts a page where it stands, in the present map and in that of the last savepoint; a block
    // off the area or one that serves another page is refused, and nothing changes.
    fn admit(&mut self, place: usize, entry: ConverterEntry) -> bool
        requires place { place < self.old.conv + length self.old.owner }
        requires loading { IsLoading self.old }
        requires stamp { entry.stamp < 2 ^ 62 }
        requires fits { self.old.conv ≤ place → IsTrue (converter_entry_fits entry) }
        ensures taken { IsTrue result
            → (IsOff (length self.old.owner) entry.block → ⊥) × (IsUsed self.old entry.block → ⊥)
            × (self.new ≡ with_loaded self.old place entry) }
        ensures refused { (IsTrue result → ⊥)
            → (IsOff (length self.old.owner) entry.block ⊎ IsUsed self.old entry.block)
            × (self.new ≡ self.old) }
        ensures sound { IsSoundMaps self.old }
    {
        let blocks = self.blocks();
        let b = entry.block;
        if b < 2 || b >= blocks {
            return false;
        }
        if self.uses(b) {
            return false;
        }
        self.place(place, entry);
        true
    }

    // Puts the leaves that a root names.
    fn admit_leaves(&mut self, root: &ConverterRoot) -> bool
        requires loading { IsLoading self.old }
        requires stamp { root.now.savepoint < 2 ^ 62 }
        requires long { length root.now.leaves.items + 1 ≡ self.old.conv }
        ensures taken { IsTrue result
            → Admitted self.old self.new 1 (row_of root.now) (length root.now.leaves.items) }
        ensures placed { IsTrue result → (k : ℕ) → k < length root.now.leaves.items
            → 1 < get_or root.now.leaves.items k 0 }
        ensures refused { (IsTrue result → ⊥)
            → (k : ℕ) × (k < length root.now.leaves.items)
            × IsEntryRefused self.old (row_of root.now) k }
        ensures area { length self.new.owner ≡ length self.old.owner }
    {
        for k in 0..root.leaves.len() {
            let entry = ConverterEntry {
                block: root.leaves.as_slice()[k],
                stamp: root.savepoint,
            };
            if !self.admit(1 + k, entry) {
                return false;
            }
        }
        true
    }

    // Puts the pages of a leaf.
    fn admit_pages(&mut self, leaf: u32, entries: &[ConverterEntry; PAGES]) -> bool
        requires leaf { leaf + 1 < self.old.conv }
        requires loading { IsLoading self.old }
        requires stamps { (k : ℕ) → k < 600 → (entry_at entries.now k).stamp < 2 ^ 62 }
        requires fits { (k : ℕ) → k < 600 → IsTrue (converter_entry_fits (entry_at entries.now k)) }
        requires past { (k : ℕ) → k < 600 → length self.old.owner ≤ 600 * leaf + k
            → entry_at entries.now k ≡ no_entry }
        requires empty { (q : ℕ) → self.old.conv + 600 * leaf ≤ q
            → entry_at self.old.saved q ≡ no_entry }
        // The result.
        ensures taken { IsTrue result
            → Admitted self.old self.new (self.old.conv + 600 * leaf) (entry_at entries.now) 600 }
        ensures refused { (IsTrue result → ⊥)
            → (k : ℕ) × (k < 600) × (0 < block_of entries.now k)
            × IsEntryRefused self.old (entry_at entries.now) k }
        ensures area { length self.new.owner ≡ length self.old.owner }
    {
        let at = 1 + self.leaves() as usize + PAGES * leaf as usize;
        for k in 0..PAGES {
            if entries[k].block != 0 && !self.admit(at + k, entries[k]) {
                return false;
            }
        }
        true
    }

    // Reads a leaf, and puts its pages.
    fn load_leaf<H: Host>(
        &mut self,
        host: &mut H,
        volumes: &Volumes,
        leaf: u32,
    ) -> Result<(), PageFault>
        requires leaf { leaf + 1 < self.old.conv }
        requires loading { IsLoading self.old }
        requires empty { (q : ℕ) → self.old.conv + 600 * leaf ≤ q
            → entry_at self.old.saved q ≡ no_entry }
        requires area { sum volumes.now ≡ length self.old.owner }
        requires there { H.tells → IsArea volumes.now (H.disk host.old).seen }
        // The result.
        ensures taken { OnOk result
            ((bytes : List ℕ) × TakesLeaf self.old self.new leaf bytes
            × (H.tells
            → bytes
            ≡ block_at volumes.now (H.disk host.old).seen
            (block_of self.old.saved (leaf + 1)))) }
        ensures broken { IfErr result
            (FaultReports
            (λ damage. H.tells
            → RefusesLeaf volumes.now self.old leaf
            (block_at volumes.now (H.disk host.old).seen
            (block_of self.old.saved (leaf + 1)))
            damage)) }
        ensures size { length self.new.owner ≡ length self.old.owner }
        ensures sound { IsSoundMaps self.old }
        // The devices.
        ensures reads { ReadsOnly H.Host host.old host.new }
        // The faults.
        ensures cause { result ≡ Err PageFault.Failed
            → Rose (H.faults host.old) (H.faults host.new) }
    {
        let blocks = self.blocks();
        let b = self.own_block(leaf + 1);
        let mut page = [0u8; PAGE_BYTES];
        let Ok(()) = volumes.read_block(host, b, &mut page) else {
            return Err(PageFault::Failed);
        };
        let Some(value) = leaf_in(&page, leaf, blocks) else {
            return Err(broken(volumes, b, Rule::ConverterLeaf));
        };
        if self.admit_pages(leaf, &value.entries) {
            Ok(())
        } else {
            Err(broken(volumes, b, Rule::Block))
        }
    }

    // Reads all leaves.
    fn load_leaves<H: Host>(
        &mut self,
        host: &mut H,
        volumes: &Volumes,
        root: u32,
    ) -> Result<(), PageFault>
        requires way { IsUnderWay H.tells self.old self.old root
            (block_at volumes.now (H.disk host.old).seen) 0 }
        requires area { sum volumes.now ≡ length self.old.owner }
        requires there { H.tells → IsArea volumes.now (H.disk host.old).seen }
        // The result.
        ensures map { ReadsMap H.tells volumes.now root
            (block_at volumes.now (H.disk host.old).seen) self.old self.new result }
        // The devices.
        ensures reads { ReadsOnly H.Host host.old host.new }
        // The faults.
        ensures cause { result ≡ Err PageFault.Failed
            → Rose (H.faults host.old) (H.faults host.new) }
    {
        for leaf in 0..self.leaves() {
            self.load_leaf(host, volumes, leaf)?;
        }
        Ok(())
    }

    // Reads the map into empty maps.
    fn read_map<H: Host>(
        &mut self,
        host: &mut H,
        volumes: &Volumes,
        root: u32,
    ) -> Result<(), PageFault>
        requires blank { self.old ≡ empty_maps (length self.old.owner) self.old.owner }
        requires area { sum volumes.now ≡ length self.old.owner }
        requires there { H.tells → IsArea volumes.now (H.disk host.old).seen }
        // The result.
        ensures map { ReadsMap H.tells volumes.now root
            (block_at volumes.now (H.disk host.old).seen) self.old self.new result }
        // The devices.
        ensures reads { ReadsOnly H.Host host.old host.new }
        // The faults.
        ensures cause { result ≡ Err PageFault.Failed
            → Rose (H.faults host.old) (H.faults host.new) }
    {
        let blocks = self.blocks();
        let leaves = self.leaves();
        if root < 2 || root >= blocks {
            return Err(PageFault::Damaged(Damage {
                device: Device::Data(1),
                page: 0,
                rule: Rule::Block,
            }));
        }
        let value = read_root(host, volumes, root, leaves)?;
        let entry = ConverterEntry {
            block: root,
            stamp: value.savepoint,
        };
        self.place(0, entry);
        if !self.admit_leaves(&value) {
            return Err(broken(volumes, root, Rule::Block));
        }
        self.load_leaves(host, volumes, root)
    }

    /// Reads the map whose root stands in a block: it is then the present map and that of the last
    /// savepoint, and none is frozen. Whatever the maps were before is gone. After an error all
    /// maps are empty. The damage of a block is named by the volume and the page where it lies;
    /// that of a root which is no block of the area by the first page of the first volume, where
    /// the restart record stands.
    pub fn load<H: Host>(
        &mut self,
        host: &mut H,
        volumes: &Volumes,
        root: u32,
    ) -> Result<(), PageFault>
        requires area { sum volumes.now ≡ length self.old.owner }
        requires there { H.tells → IsArea volumes.now (H.disk host.old).seen }
        // The result.
        ensures maps { OnOk result
            (self.new
            ≡ record (empty_maps (length self.old.owner) self.new.owner)
            { present = self.new.saved; saved = self.new.saved }) }
        ensures read { OnOk result
            (H.tells
            → IsRead self.new.conv (length self.new.owner) root
            (block_at volumes.now (H.disk host.old).seen) (self.new.conv - 1)
            self.new.saved) }
        ensures own { OnOk result ((q : ℕ) → q < self.new.conv → 1 < block_of self.new.saved q) }
        ensures whole { OnOk result
            (H.tells → (damage : Damage)
            → Breaks volumes.now self.new.conv (length self.new.owner) root
            (block_at volumes.now (H.disk host.old).seen) damage
            → ⊥) }
        ensures empty { OnErr result
            (self.new ≡ empty_maps (length self.old.owner) self.new.owner) }
        ensures broken { IfErr result
            (FaultReports
            (λ damage. H.tells
            → Breaks volumes.now self.new.conv (length self.old.owner) root
            (block_at volumes.now (H.disk host.old).seen) damage)) }
        ensures size { length self.new.owner ≡ length self.old.owner }
        // The devices.
        ensures reads { ReadsOnly H.Host host.old host.new }
        // The faults.
        ensures cause { result ≡ Err PageFault.Failed
            → Rose (H.faults host.old) (H.faults host.new) }
    {
        self.empty();
        let read = self.read_map(host, volumes, root);
        // Opens the invariant of the maps.
        let _leaves = self.leaves();
        if read.is_err() {
            self.empty();
        }
        read
    }
}
