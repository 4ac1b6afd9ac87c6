//! What a store keeps. What holds of it at any time (`IsStore`, `IsKeptStore`):
//!
//! 1. The free flags, the marks, the frames and the states have an item for each block, and the
//!    volumes have as many blocks.
//! 2. No free block is one of the first two, one that a map has, or one with a mark.
//! 3. Each other block from the third on is free: none is lost.
//! 4. No block of the last savepoint's map or of a page of the converter, no free one and none with
//!    a mark has a newer frame.
//! 5. A block that is newer has a frame.
//! 6. While no savepoint is under way the frozen map has no page.
//! 7. The number of the next savepoint is above 0 and below 2^62.
//! 8. Exactly the blocks of the pinned map have mark 0.
//! 9. There is room for a pinned map.
ghost use Rattle.std.specs.Prelude.{◌≡◌, ◌+◌, ◌-◌, ◌<◌, ◌≤◌, ◌^◌, ◌↔◌, if◌then◌else◌};
ghost use Rattle.std.specs.Prelude.{length, sum, IsSome, IsTrue};
ghost use Rattle.free_blocks.specs.Free.{free_count};
ghost use Rattle.converter.specs.Maps.{Maps, IsSoundMaps, block_of};
ghost use Rattle.page_store.specs.Store.{Store, IsStore, Lives, block_count, page_block};
ghost use Rattle.page_store.specs.Store.{own_unmarked, spare_of, is_marked, IsHeld};

use converter::{Converter, Entry};
use free_blocks::{FreeBlocks, Marks};
use mdb_model::limits::PAGE_BYTES;
use std::marker::Model;
use volume_disk::Volumes;

/// Whether a block has a frame, and whether the frame is newer than the block.
#[derive(Clone, Copy, Debug, PartialEq, Eq)]
pub enum FrameState {
    /// The block has no frame.
    Absent,
    /// The frame has what stands on the block.
    Same,
    /// The frame is newer than the block.
    Changed,
}

/// Logical pages of 8,192 bytes over the blocks of the data volumes, with one frame in memory for
/// each block. A frame is filled when its page is first read.
#[derive(Drop)]
pub struct PageStore {
    pub(crate) volumes: Volumes,
    pub(crate) converter: Converter,
    pub(crate) free: FreeBlocks,
    pub(crate) marks: Marks,
    pub(crate) frames: Vec<[u8; PAGE_BYTES]>,
    pub(crate) states: Vec<FrameState>,
    // the number of the next savepoint
    pub(crate) next: u64,
    pub(crate) is_pinned: bool,
    // the pinned map, or room for one
    pub(crate) pinned: Vec<Entry>,
    // where the search for a dead page begins
    pub(crate) search_from: u32,
}

impl Model for PageStore {
    ghost use Rattle.std.specs.Prelude.{◌≡◌, ◌+◌, length};
    ghost use Rattle.page_store.specs.Store.{Store, store_of, IsStore, IsKeptStore};

    ghost Value = { Store };

    ghost view = { λ s. store_of s.converter s.free s.marks s.volumes s.frames.items s.states.items
        s.next s.is_pinned s.pinned.items };

    ghost invariant = { λ s. IsKeptStore s.converter s.free s.marks s.volumes s.frames.items
        s.states.items s.next s.is_pinned s.pinned.items };
}

impl PageStore {
    /// How many blocks there are, which is also how many page numbers.
    pub fn blocks(&self) -> u32
        ensures count { result ≡ block_count self.now }
        ensures sound { IsSoundMaps self.now.maps }
        ensures store { IsStore self.now }
    {
        // Opens the invariant of the maps.
        let _leaves = self.converter.leaves();
        self.volumes.blocks()
    }

    /// The number of the next savepoint, which pages have that are written now.
    pub fn next(&self) -> u64
        ensures { result ≡ self.now.next }
    {
        self.next
    }

    /// Whether a page lives.
    pub fn lives(&self, page: u32) -> bool
        ensures lives { IsTrue result ↔ Lives self.now page }
        ensures below { IsTrue result → page < block_count self.now }
    {
        page < self.blocks() && self.converter.map(page).is_some()
    }

    // The block of a page that lives.
    pub(crate) fn block_of(&self, page: u32) -> u32
        requires { Lives self.now page }
        ensures block { result ≡ page_block self.now page }
        ensures below { result < block_count self.now }
        ensures page { page < block_count self.now }
        ensures sound { IsSoundMaps self.now.maps }
        ensures store { IsStore self.now }
    {
        // Opens the invariant of the store.
        let _blocks = self.blocks();
        let Some(entry) = self.converter.map(page) else {
            unreachable!()
        };
        entry.block
    }

    // Whether a kept map has the block, or it has a mark.
    pub(crate) fn is_held(&self, block: u32) -> bool
        requires some { 0 < block }
        requires below { block < block_count self.now }
        ensures { IsTrue result ↔ IsHeld self.now block }
    {
        let kept = self.converter.kept(block);
        let marked = self.marks.marked(block);
        kept | marked
    }

    // How many own pages of the last savepoint's map have a block without a mark.
    fn own_unmarked(&self) -> u32
        ensures count { result ≡ own_unmarked self.now self.now.maps.conv }
        ensures few { result ≤ self.now.maps.conv }
    {
        let mut count = 0;
        for place in 0..self.converter.leaves() + 1 {
            count += self.unmarked_at(place);
        }
        count
    }

    // 0 where the block of an own page of the last savepoint's map has a mark, and else 1.
    fn unmarked_at(&self, place: u32) -> u32
        requires { place < self.now.maps.conv }
        ensures { result
            ≡ (if is_marked self.now.marks (block_of self.now.maps.saved place) then 0 else 1) }
    {
        let entry = self.converter.saved_entry(place);
        if self.marks.marked(entry.block) { 0 } else { 1 }
    }

    /// How many pages that are not paid can be written, new ones included: what is free, less what
    /// the next savepoint takes for the converter, and while a savepoint is under way less what
    /// that one takes, and with what it frees there.
    pub fn spare(&self) -> u32
        ensures { result ≡ spare_of self.now }
    {
        let own = self.converter.leaves() + 1;
        let free = self.free.count();
        if self.converter.is_frozen() {
            (free + self.own_unmarked()).saturating_sub(2 * own)
        } else {
            free.saturating_sub(own)
        }
    }

    /// Whether a savepoint was begun that is not released yet.
    pub fn is_saving(&self) -> bool
        ensures { IsTrue result ↔ IsSome self.now.maps.frozen_at }
    {
        self.converter.is_frozen()
    }

    /// Whether a map is pinned.
    pub fn is_pinned(&self) -> bool
        ensures { IsTrue result ↔ IsSome self.now.pinned }
    {
        self.is_pinned
    }

    /// Whether a savepoint may be begun: there are free blocks for all pages of the converter.
    pub fn savepoint_fits(&self) -> bool
        ensures { IsTrue result ↔ (self.now.maps.conv ≤ free_count self.now.free) }
    {
        let own = self.converter.leaves() + 1;
        self.free.count() >= own
    }
}
