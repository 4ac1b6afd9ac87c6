//! Pins: the map of a savepoint stays readable while later savepoints come.
ghost use Rattle.std.specs.Prelude.{◌≡◌, ◌⊎◌, ◌↔◌, ℕ, ◌+◌, ◌<◌, ◌≤◌, if◌then◌else◌, ◌&&◌};
ghost use Rattle.std.specs.Prelude.{List, Bool, length, slice_set, Some, None, Err, IsSome, IfSome};
ghost use Rattle.std.specs.Prelude.{IsTrue, IfOk, IfErr, OnOk, nat_lt, true, false};
ghost use Rattle.mdb_model.specs.Causes.{Rose};
ghost use Rattle.mdb_model.specs.Images.{Image};
ghost use Rattle.mdb_model.specs.declared.limits.TheConstants.{MOST_BLOCKS};
ghost use Rattle.mdb_host.specs.Reads.{ReadsOnly};
ghost use Rattle.mdb_bytes.specs.declared.converter_pages.ConverterEntry.{ConverterEntry};
ghost use Rattle.free_blocks.specs.Free.{IsFree};
ghost use Rattle.free_blocks.specs.Marked.{HasMark, IsMarked, with_mark};
ghost use Rattle.volume_disk.specs.Blocks.{IsArea, block_at};
ghost use Rattle.converter.specs.Maps.{IsSoundMaps, IsUsed, block_of, entry_at};
ghost use Rattle.page_store.specs.Store.{Store, IsStore, IsPinned, AreSixteen, block_count, FramesMatch};
ghost use Rattle.page_store.specs.Pins.{MarksAlso, UnmarksThese, GivesThese, is_newer_page};
ghost use Rattle.page_store.specs.Pins.{newer_below, IsAfter, IsNextPage, IsNewerFrom};

use crate::frames::read_there;
use crate::store::PageStore;
use converter::{Converter, Entry};
use free_blocks::{FreeBlocks, Marks};
use mdb_host::Host;
use mdb_model::fault::PageFault;
use mdb_model::limits::PAGE_BYTES;

/// The right to read the pinned map of a store.
#[derive(Drop)]
pub struct Pin(());

// Keeps an entry of the last savepoint's map, and marks its block.
fn keep_entry(marks: &mut Marks, room: &mut [Entry], converter: &Converter, place: u32)
    requires place { place < converter.now.conv + length converter.now.owner }
    requires long { length room.old ≡ converter.now.conv + length converter.now.owner }
    requires area { length marks.old ≡ length converter.now.owner }
    ensures room { room.new ≡ slice_set room.old place (entry_at converter.now.saved place) }
    ensures marks { marks.new
        ≡ (if nat_lt 0 (block_of converter.now.saved place)
        then with_mark marks.old (block_of converter.now.saved place) 0 true else marks.old) }
{
    let entry = converter.saved_entry(place);
    room[place as usize] = entry;
    if entry.block > 0 {
        marks.mark(entry.block, 0);
    }
}

// Keeps the last savepoint's map, and marks its blocks.
fn keep_map(marks: &mut Marks, room: &mut [Entry], converter: &Converter)
    requires long { length room.old ≡ converter.now.conv + length converter.now.owner }
    requires area { length marks.old ≡ length converter.now.owner }
    requires sixteen { AreSixteen marks.old }
    ensures map { room.new ≡ converter.now.saved }
    ensures marks { MarksAlso converter.now.saved (converter.now.conv + length converter.now.owner)
        marks.old marks.new }
{
    // Opens the invariant of the maps.
    let _leaves = converter.leaves();
    for place in 0..room.len() as u32 {
        keep_entry(marks, room, converter, place);
    }
}

// Takes mark 0 from the blocks of a map.
fn unmark_map(marks: &mut Marks, map: &[Entry])
    requires area { (q : ℕ) → block_of map.now q < length marks.old }
    requires sixteen { AreSixteen marks.old }
    ensures { UnmarksThese map.now (length map.now) marks.old marks.new }
{
    for entry in map {
        if entry.block > 0 {
            marks.unmark(entry.block, 0);
        }
    }
}

// Frees a block that no map has and that has no mark.
fn give_unused(free: &mut FreeBlocks, converter: &Converter, marks: &Marks, block: u32)
    requires some { 0 < block }
    requires below { block < length converter.now.owner }
    requires area { (length free.old ≡ length converter.now.owner)
        × (length marks.now ≡ length converter.now.owner) }
    requires taken { IsFree free.old block → ⊥ }
    ensures given { (IsUsed converter.now block → ⊥) → (IsMarked marks.now block → ⊥)
        → free.new ≡ slice_set free.old block true }
    ensures kept { IsUsed converter.now block ⊎ IsMarked marks.now block → free.new ≡ free.old }
{
    if converter.uses(block) {
        return;
    }
    if marks.marked(block) {
        return;
    }
    free.give(block);
}

// Frees the blocks of a map that nothing has any more.
fn give_map(free: &mut FreeBlocks, converter: &Converter, marks: &Marks, map: &[Entry])
    requires area { (length free.old ≡ length converter.now.owner)
        × (length marks.now ≡ length converter.now.owner) }
    requires below { (q : ℕ) → block_of map.now q < length converter.now.owner }
    requires high { (q : ℕ) → 0 < block_of map.now q → 1 < block_of map.now q }
    requires apart { (p q : ℕ) → 0 < block_of map.now p → block_of map.now p ≡ block_of map.now q
        → p ≡ q }
    requires taken { (q : ℕ) → 0 < block_of map.now q → IsFree free.old (block_of map.now q) → ⊥ }
    ensures { GivesThese map.now (length map.now) converter.now marks.now free.old free.new }
{
    for entry in map {
        if entry.block > 0 {
            give_unused(free, converter, marks, entry.block);
        }
    }
}

// The number of the first page after this one.
fn first_after(after: Option<u32>) -> u32
    ensures after { (page : ℕ) → IsAfter after page → result ≤ page }
    ensures back { (page : ℕ) → page < MOST_BLOCKS → result ≤ page → IsAfter after page }
{
    match after {
        Some(page) => page.saturating_add(1),
        None => 0,
    }
}

// Whether an entry is one of a page that was written after a savepoint.
fn is_newer(entry: Entry, base: u64) -> bool
    ensures { result ≡ nat_lt 0 entry.block && nat_lt base entry.stamp }
{
    entry.block > 0 && entry.stamp > base
}

impl PageStore {
    /// Pins the map of the last savepoint: until it is given up, nothing is written to its blocks.
    /// It calls no device and takes no memory.
    pub fn pin(&mut self) -> Pin
        requires { self.old.pinned ≡ None }
        ensures same { self.new
            ≡ record self.old { marks = self.new.marks; pinned = Some self.old.maps.saved } }
        ensures marks { IsPinned self.old.maps.conv (block_count self.old) self.new.marks
            self.old.maps.saved }
        ensures others { (b i : ℕ) → 0 < i
            → HasMark self.old.marks b i ↔ HasMark self.new.marks b i }
        ensures reads { (seen : Image) → FramesMatch self.old seen → FramesMatch self.new seen }
    {
        // Opens the invariant of the store.
        let _blocks = self.blocks();
        keep_map(&mut self.marks, &mut self.pinned, &self.converter);
        self.is_pinned = true;
        Pin(())
    }

    /// Gives the pinned map up. The blocks that it alone had are free then, where no other mark is
    /// on them.
    pub fn unpin(&mut self, pin: Pin)
        requires { IsSome self.old.pinned }
        ensures same { self.new
            ≡ record self.old { marks = self.new.marks; free = self.new.free; pinned = None } }
        ensures marks { (b : ℕ) → HasMark self.new.marks b 0 → ⊥ }
        ensures others { (b i : ℕ) → 0 < i
            → HasMark self.old.marks b i ↔ HasMark self.new.marks b i }
        ensures free { (b : ℕ) → IsFree self.old.free b → IsFree self.new.free b }
        ensures given { (b : ℕ) → IsFree self.new.free b
            → IsFree self.old.free b ⊎ IsMarked self.old.marks b }
        ensures reads { (seen : Image) → FramesMatch self.old seen → FramesMatch self.new seen }
    {
        let _pin = pin;
        // Opens the invariant of the store.
        let _blocks = self.blocks();
        unmark_map(&mut self.marks, &self.pinned);
        give_map(&mut self.free, &self.converter, &self.marks, &self.pinned);
        self.is_pinned = false;
    }

    // The pinned entry of a page; one of no page where there is none.
    fn pinned_entry(&self, page: u32) -> Entry
        requires { IsSome self.now.pinned }
        ensures entry { (m : List ConverterEntry) → self.now.pinned ≡ Some m
            → result ≡ entry_at m (self.now.maps.conv + page) }
        ensures below { result.block < block_count self.now }
    {
        // Opens the invariant of the store.
        let _blocks = self.blocks();
        let own = self.converter.leaves() as usize + 1;
        match self.pinned.get(own + page as usize) {
            Some(entry) => *entry,
            None => Entry { block: 0, stamp: 0 },
        }
    }

    /// Whether the pinned map has a page.
    pub fn pin_lives(&self, _pin: &Pin, page: u32) -> bool
        requires { IsSome self.now.pinned }
        ensures { (m : List ConverterEntry) → self.now.pinned ≡ Some m → IsTrue result
            ↔ (0 < block_of m (self.now.maps.conv + page)) }
    {
        self.pinned_entry(page).block > 0
    }

    /// How many pages of the pinned map were written after the savepoint of this number, 0 for all
    /// pages. It calls no device.
    pub fn pin_count(&self, _pin: &Pin, base: u64) -> u32
        requires { IsSome self.now.pinned }
        ensures { (m : List ConverterEntry) → self.now.pinned ≡ Some m
            → result ≡ newer_below m self.now.maps.conv base (block_count self.now) }
    {
        let mut count = 0;
        for page in 0..self.blocks() {
            if is_newer(self.pinned_entry(page), base) {
                count += 1;
            }
        }
        count
    }

    // The least page of the pinned map from this one on that was written after a savepoint.
    fn next_newer(&self, from: u32, base: u64) -> Option<u32>
        requires { IsSome self.now.pinned }
        ensures found { (m : List ConverterEntry) → self.now.pinned ≡ Some m
            → IsNewerFrom m self.now.maps.conv base from result }
        ensures small { IfSome result (λ page. page < MOST_BLOCKS) }
    {
        for page in from..self.blocks() {
            if is_newer(self.pinned_entry(page), base) {
                return Some(page);
            }
        }
        None
    }

    /// Copies the least page of the pinned map after `after`, or the least of all, that was written
    /// after the savepoint of this number, as it was then; none where there is none. After a fault
    /// `into` may hold any bytes.
    pub fn pinned<H: Host>(
        &mut self,
        host: &mut H,
        _pin: &Pin,
        after: Option<u32>,
        base: u64,
        into: &mut [u8; PAGE_BYTES],
    ) -> Result<Option<u32>, PageFault>
        requires { IsSome self.old.pinned }
        // The result.
        ensures same { self.new ≡ self.old }
        ensures found { (m : List ConverterEntry) → self.old.pinned ≡ Some m
            → IfOk result (IsNextPage m self.old.maps.conv base after) }
        ensures bytes { (m : List ConverterEntry) → self.old.pinned ≡ Some m
            → IfOk result
            (λ found. (page : ℕ) → found ≡ Some page → H.tells
            → IsArea self.old.sizes (H.disk host.old).seen
            → into.new
            ≡ block_at self.old.sizes (H.disk host.old).seen
            (block_of m (self.old.maps.conv + page))) }
        // The devices.
        ensures reads { ReadsOnly H.Host host.old host.new }
        // The faults.
        ensures cause { result ≡ Err PageFault.Failed
            → Rose (H.faults host.old) (H.faults host.new) }
        ensures whole { H.tells → IsArea self.old.sizes (H.disk host.old).seen
            → IfErr result (λ fault. fault ≡ PageFault.Failed) }
    {
        // Opens the invariant of the store.
        let _blocks = self.blocks();
        let Some(page) = self.next_newer(first_after(after), base) else {
            return Ok(None);
        };
        let b = self.pinned_entry(page).block;
        read_there(&self.volumes, host, b, into)?;
        Ok(Some(page))
    }
}
