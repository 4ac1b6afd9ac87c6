//! The maps from pages to blocks. What holds of them at any time (`IsSoundMaps`, `IsFollowed`):
//!
//! 1. The area has 1 to 65,536 blocks. The converter has a root and a leaf for each 600 of them.
//! 2. The three maps have one length: the own pages of the converter, and a place for each block.
//! 3. Each entry is of a block of the area, with a stamp below 2^62, as the format has it.
//! 4. The present map has the own pages of the frozen map, or of the last savepoint's map while no
//!    map is frozen.
//! 5. No map has one of the first two blocks.
//! 6. A block has the same place in each map that has it, and the owner table names this place.
//! 7. Where no flag says that a leaf of a kept map is behind, it is that of the present map.
ghost use Rattle.std.specs.Prelude.{◌≡◌, ◌≢◌, ◌⊎◌, ◌↔◌, ℕ, ◌+◌, ◌-◌, ◌*◌, ◌/◌, ◌<◌, ◌≤◌, ◌^◌};
ghost use Rattle.std.specs.Prelude.{length, replicate, IfOk, IsSome, IsTrue, MatchOption, Some};
ghost use Rattle.std.specs.Prelude.{None, slice_set, false};
ghost use Rattle.mdb_model.specs.declared.limits.TheConstants.{MOST_BLOCKS};
ghost use Rattle.free_blocks.specs.Free.{IsFree, free_count};
ghost use Rattle.converter.specs.Maps.{Maps, IsSoundMaps, entry_at, block_of, IsKept, IsUsed};
ghost use Rattle.converter.specs.Maps.{IsOpenTo, AreUnused, Leaves, FreesLeaving, empty_maps, with_own};
ghost use Rattle.converter.specs.Maps.{with_loaded, frozen_as_saved, own_of};
ghost use Rattle.mdb_bytes.specs.ConverterPages.{converter_entry_fits};
ghost use Rattle.mdb_bytes.specs.Firsts.{no_entry};
ghost use Rattle.converter.specs.Tree.{TakesBlock, IsSameLeaf};
ghost use Rattle.converter.specs.Loads.{IsOff, IsLoading};

use crate::kept::{
    KeptMap, LEAVES, NO_ENTRY, PAGES, blank, catch_up, entry_of, give_left, is_at, make_empty,
    run_of, same_run,
};
use free_blocks::{FreeBlocks, Marks};
use mdb_bytes::ConverterEntry;
use mdb_model::fault::Memory;
use std::alloc::Global;
use std::marker::Model;
use std::mem;

/// The map from pages to blocks, as it is now, as it was at the last savepoint, and as it was
/// frozen for one that is being made. It is seen as three lists of entries of one length: the root,
/// then the leaves, then the logical pages. It keeps 52 bytes for each block of the area.
#[derive(Drop)]
pub struct Converter {
    conv: usize,
    present: Vec<ConverterEntry>,
    saved: KeptMap,
    // the frozen map, or room for the next one
    frozen: KeptMap,
    // the place that a block has in any of the maps
    owner: Vec<u32>,
    frozen_at: Option<u64>,
}

impl Model for Converter {
    ghost use Rattle.converter.specs.Maps.{Maps, IsFollowed, shown_frozen};

    ghost Value = { Maps };

    ghost view = { λ s. record {
      conv = s.conv;
      present = s.present.items;
      saved = s.saved.entries.items;
      frozen = shown_frozen s.frozen_at s.frozen.entries.items;
      owner = s.owner.items;
      frozen_at = s.frozen_at;
    } };

    ghost invariant = { λ s. IsFollowed
        record {
          conv = s.conv;
          present = s.present.items;
          saved = s.saved.entries.items;
          frozen = shown_frozen s.frozen_at s.frozen.entries.items;
          owner = s.owner.items;
          frozen_at = s.frozen_at;
        }
        s.frozen.entries.items
        s.saved.behind
        s.frozen.behind };
}

/// Stands for the map that was frozen with this savepoint number.
#[derive(Debug, Drop)]
pub struct FrozenMap {
    savepoint: u64,
    pub ghost small: { savepoint < 2 ^ 62 },
}

// A list with no page.
fn empty_list(alloc: Global, long: usize) -> Result<Vec<ConverterEntry>, Memory>
    ensures { IfOk result (λ l. l.items ≡ replicate long no_entry) }
{
    let Ok(entries) = vec![in alloc; NO_ENTRY; long] else {
        return Err(Memory);
    };
    Ok(entries)
}

// A map with no page.
fn empty_map(alloc: Global, long: usize) -> Result<KeptMap, Memory>
    ensures entries { IfOk result (λ m. m.entries.items ≡ replicate long no_entry) }
    ensures behind { IfOk result (λ m. m.behind ≡ replicate 110 false) }
{
    let entries = empty_list(alloc, long)?;
    Ok(KeptMap {
        entries,
        behind: [false; LEAVES],
    })
}

impl FrozenMap {
    // Its savepoint number.
    pub(crate) fn savepoint(&self) -> u64
        ensures number { result ≡ self.now.savepoint }
        ensures small { result < 2 ^ 62 }
    {
        self.savepoint
    }
}

impl Converter {
    /// All maps are empty. Out of memory, nothing is kept.
    pub fn new(alloc: Global, blocks: u32) -> Result<Converter, Memory>
        requires some { 0 < blocks }
        requires bound { blocks ≤ MOST_BLOCKS }
        ensures { IfOk result (λ m. m ≡ empty_maps blocks (replicate blocks 0)) }
    {
        let conv = 1 + (blocks as usize + (PAGES - 1)) / PAGES;
        let long = conv + blocks as usize;
        let present = empty_list(alloc, long)?;
        let saved = empty_map(alloc, long)?;
        let frozen = empty_map(alloc, long)?;
        let Ok(owner) = vec![in alloc; 0u32; blocks as usize] else {
            return Err(Memory);
        };
        Ok(Converter {
            conv,
            present,
            saved,
            frozen,
            owner,
            frozen_at: None,
        })
    }

    /// The block of a page in the present map, and the savepoint that last wrote it.
    pub fn map(&self, page: u32) -> Option<ConverterEntry>
        requires { page < length self.now.owner }
        ensures { MatchOption
            result
            (block_of self.now.present (self.now.conv + page) ≡ 0)
            (λ e. (e ≡ entry_at self.now.present (self.now.conv + page)) × (0 < e.block)) }
    {
        let e = self.present[self.conv + page as usize];
        if e.block == 0 { None } else { Some(e) }
    }

    /// Gives a page of the present map this block. The block that it had is not freed.
    pub fn set(&mut self, page: u32, entry: ConverterEntry)
        requires below { page < length self.old.owner }
        requires block { (2 ≤ entry.block) × (entry.block < length self.old.owner) }
        requires stamp { (0 < entry.stamp) × (entry.stamp < 2 ^ 62) }
        requires alone { IsOpenTo self.old entry.block (self.old.conv + page) }
        ensures { self.new ≡ record self.old {
          present = slice_set self.old.present (self.old.conv + page) entry;
          owner = slice_set self.old.owner entry.block (self.old.conv + page);
        } }
    {
        let q = self.conv + page as usize;
        self.present[q] = entry;
        self.owner[entry.block as usize] = q as u32;
        self.saved.behind[page as usize / PAGES] = true;
        self.frozen.behind[page as usize / PAGES] = true;
    }

    /// Takes its block from a page of the present map. The block is not freed.
    pub fn clear(&mut self, page: u32)
        requires { page < length self.old.owner }
        ensures { self.new
            ≡ record self.old
            { present = slice_set self.old.present (self.old.conv + page) no_entry } }
    {
        let q = self.conv + page as usize;
        self.present[q] = NO_ENTRY;
        self.saved.behind[page as usize / PAGES] = true;
        self.frozen.behind[page as usize / PAGES] = true;
    }

    // The frozen map, which has no page where none is frozen.
    fn frozen_entries(&self) -> &[ConverterEntry]
        ensures { (q : ℕ) → entry_at result.now q ≡ entry_at self.now.frozen q }
    {
        match self.frozen_at {
            Some(_) => &self.frozen.entries,
            None => &[],
        }
    }

    /// Whether the last savepoint's or the frozen map has the block, for a page or for a page of
    /// the converter.
    pub fn kept(&self, block: u32) -> bool
        requires some { 0 < block }
        requires below { block < length self.now.owner }
        ensures { IsTrue result ↔ IsKept self.now block }
    {
        let q = self.owner[block as usize] as usize;
        let saved = is_at(&self.saved.entries, q, block);
        let frozen = is_at(self.frozen_entries(), q, block);
        saved | frozen
    }

    /// Whether one of these two or the present map has it.
    pub fn uses(&self, block: u32) -> bool
        requires some { 0 < block }
        requires below { block < length self.now.owner }
        ensures { IsTrue result ↔ IsUsed self.now block }
    {
        let q = self.owner[block as usize] as usize;
        let present = is_at(&self.present, q, block);
        let kept = self.kept(block);
        present | kept
    }

    /// Makes the present map the frozen one. It copies the entries of the leaves in which a page
    /// changed since the savepoint before the last one, and those of the converter's own pages.
    pub fn freeze(&mut self, savepoint: u64) -> FrozenMap
        requires none { self.old.frozen_at ≡ None }
        requires number { savepoint < 2 ^ 62 }
        ensures maps { self.new ≡ record self.old {
          frozen = self.old.present;
          frozen_at = Some savepoint;
        } }
        ensures stands { result.savepoint ≡ savepoint }
    {
        catch_up(&mut self.frozen, &self.present, self.conv);
        self.frozen_at = Some(savepoint);
        FrozenMap { savepoint }
    }

    /// Makes the frozen map that of the last savepoint. It frees what the former one alone had,
    /// but for blocks with a mark.
    pub fn settle(&mut self, free: &mut FreeBlocks, marks: &Marks, map: FrozenMap)
        requires frozen { self.old.frozen_at ≡ Some map.savepoint }
        requires area { (length free.old ≡ length self.old.owner)
            × (length marks.now ≡ length self.old.owner) }
        requires unused { AreUnused self.old free.old }
        ensures maps { self.new ≡ frozen_as_saved self.old }
        ensures given { FreesLeaving (Leaves self.old marks.now) 0 (length self.old.saved) free.old
            free.new }
    {
        let FrozenMap { savepoint: _ } = map;
        give_left(
            free,
            marks,
            &self.present,
            &self.saved,
            &self.frozen.entries,
            self.conv,
        );
        mem::swap(&mut self.saved, &mut self.frozen);
        self.frozen_at = None;
    }

    // Gives one of the converter's own pages a block that no map has.
    pub(crate) fn set_own(&mut self, place: usize, entry: ConverterEntry, savepoint: u64)
        requires place { place < self.old.conv }
        requires frozen { self.old.frozen_at ≡ Some savepoint }
        requires block { (2 ≤ entry.block) × (entry.block < length self.old.owner) }
        requires stamp { entry.stamp < 2 ^ 62 }
        requires unused { IsUsed self.old entry.block → ⊥ }
        ensures { self.new ≡ with_own self.old place entry }
    {
        let _savepoint = savepoint;
        self.present[place] = entry;
        self.frozen.entries[place] = entry;
        self.owner[entry.block as usize] = place as u32;
    }

    // Gives a place of the present and the last savepoint's map a block that no map has.
    pub(crate) fn place(&mut self, place: usize, entry: ConverterEntry)
        requires place { place < self.old.conv + length self.old.owner }
        requires thawed { self.old.frozen_at ≡ None }
        requires block { (2 ≤ entry.block) × (entry.block < length self.old.owner) }
        requires stamp { entry.stamp < 2 ^ 62 }
        requires fits { self.old.conv ≤ place → IsTrue (converter_entry_fits entry) }
        requires unused { IsUsed self.old entry.block → ⊥ }
        ensures { self.new ≡ with_loaded self.old place entry }
    {
        self.present[place] = entry;
        self.saved.entries[place] = entry;
        self.owner[entry.block as usize] = place as u32;
        if place >= self.conv {
            self.frozen.behind[(place - self.conv) / PAGES] = true;
        }
    }

    // Makes all maps empty.
    pub(crate) fn empty(&mut self)
        ensures { self.new ≡ empty_maps (length self.old.owner) self.old.owner }
    {
        blank(&mut self.present);
        make_empty(&mut self.saved);
        make_empty(&mut self.frozen);
        self.frozen_at = None;
    }

    /// The block that a page has in the frozen map, or 0.
    pub fn frozen_block(&self, page: u32) -> u32
        requires { page < length self.now.owner }
        ensures block { result ≡ block_of self.now.frozen (self.now.conv + page) }
        ensures below { result < length self.now.owner }
        ensures sound { IsSoundMaps self.now }
    {
        // Opens the invariant of the maps.
        let _owner = self.owner.len();
        entry_of(self.frozen_entries(), self.conv + page as usize).block
    }

    /// Whether a map is frozen.
    pub fn is_frozen(&self) -> bool
        ensures { IsTrue result ↔ IsSome self.now.frozen_at }
    {
        self.frozen_at.is_some()
    }

    /// The entry of a place in the map of the last savepoint: the root has place 0, a leaf its
    /// number and one, and page 0 the place after the last leaf. It has block 0 where there is no
    /// page.
    pub fn saved_entry(&self, place: u32) -> ConverterEntry
        requires { place < self.now.conv + length self.now.owner }
        ensures entry { result ≡ entry_at self.now.saved place }
        ensures below { result.block < length self.now.owner }
        ensures sound { IsSoundMaps self.now }
    {
        // Opens the invariant of the maps.
        let _owner = self.owner.len();
        entry_of(&self.saved.entries, place as usize)
    }

    /// How many blocks the area has.
    pub(crate) fn blocks(&self) -> u32
        ensures count { result ≡ length self.now.owner }
        ensures sound { IsSoundMaps self.now }
    {
        self.owner.len() as u32
    }

    /// How many leaves a map has.
    pub fn leaves(&self) -> u32
        ensures count { result + 1 ≡ self.now.conv }
        ensures sound { IsSoundMaps self.now }
    {
        (self.conv - 1) as u32
    }

    /// Whether a leaf of the frozen map has to be written: it is not that of the last savepoint.
    pub fn leaf_changed(&self, map: &FrozenMap, leaf: u32) -> bool
        requires frozen { self.now.frozen_at ≡ Some map.now.savepoint }
        requires leaf { leaf + 1 < self.now.conv }
        ensures same { (IsTrue result → ⊥) ↔ IsSameLeaf self.now leaf }
        ensures sound { IsSoundMaps self.now }
    {
        let _savepoint = map.savepoint;
        let i = leaf as usize;
        if entry_of(&self.saved.entries, i + 1).block == 0 {
            return true;
        }
        (self.saved.behind[i] || self.frozen.behind[i])
            && !same_run(
                &self.frozen.entries,
                &self.saved.entries,
                self.conv + PAGES * i,
            )
    }

    // The entries of a leaf of the frozen map.
    pub(crate) fn frozen_run(&self, leaf: u32) -> [ConverterEntry; PAGES]
        requires { leaf + 1 < self.now.conv }
        ensures entries { (k : ℕ) → k < 600
            → entry_at result k ≡ entry_at self.now.frozen (self.now.conv + 600 * leaf + k) }
        ensures long { length result ≡ 600 }
        ensures sound { IsSoundMaps self.now }
    {
        let at = self.conv + PAGES * leaf as usize;
        run_of(self.frozen_entries(), at)
    }

    // The block that one of the converter's own pages has in the frozen map.
    pub(crate) fn frozen_own(&self, place: u32) -> u32
        requires { place < self.now.conv }
        ensures { result ≡ block_of self.now.frozen place }
    {
        entry_of(self.frozen_entries(), place as usize).block
    }

    // The block of one of the converter's own pages, in the frozen map or in that of the last
    // savepoint.
    pub(crate) fn own_block(&self, place: u32) -> u32
        requires { place < self.now.conv }
        ensures block { result ≡ block_of self.now.present place }
        ensures own { entry_at self.now.present place
            ≡ entry_at (own_of self.now.frozen_at self.now.saved self.now.frozen) place }
        ensures below { result < length self.now.owner }
        ensures sound { IsSoundMaps self.now }
    {
        // Opens the invariant of the maps.
        let _owner = self.owner.len();
        entry_of(&self.present, place as usize).block
    }
}
