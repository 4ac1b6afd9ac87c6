//! A map that is kept while the present one goes on.
ghost use Rattle.std.specs.Prelude.{◌≡◌, ◌⊎◌, ◌↔◌, ℕ, ◌+◌, ◌*◌, ◌/◌, ◌<◌, ◌≤◌, ◌^◌};
ghost use Rattle.std.specs.Prelude.{length, replicate, get_or, IsTrue, true, false};
ghost use Rattle.mdb_bytes.specs.Firsts.{no_entry};
ghost use Rattle.free_blocks.specs.Free.{IsFree};
ghost use Rattle.converter.specs.Maps.{entry_at, block_of, LeavesIn, FreesLeaving, IsTracked};

use free_blocks::{FreeBlocks, Marks};
use mdb_bytes::ConverterEntry;

/// The most leaves that a map has.
pub(crate) const LEAVES: usize = 110;

/// Entries of one leaf.
pub(crate) const PAGES: usize = 600;

pub(crate) const NO_ENTRY: ConverterEntry = ConverterEntry { block: 0, stamp: 0 };

/// A map that is kept, and which of its leaves may differ from those of the present map.
#[derive(Drop)]
pub(crate) struct KeptMap {
    pub(crate) entries: Vec<ConverterEntry>,
    pub(crate) behind: [bool; LEAVES],
}

/// The entry at a place, or none past the end.
pub(crate) fn entry_of(map: &[ConverterEntry], place: usize) -> ConverterEntry
    ensures { result ≡ entry_at map.now place }
{
    if place < map.len() {
        map[place]
    } else {
        NO_ENTRY
    }
}

/// Whether the map has the block at this place.
pub(crate) fn is_at(map: &[ConverterEntry], place: usize, block: u32) -> bool
    requires { 0 < block }
    ensures { IsTrue result ↔ (block_of map.now place ≡ block) }
{
    entry_of(map, place).block == block
}

/// The entries of 600 places from one on.
pub(crate) fn run_of(map: &[ConverterEntry], at: usize) -> [ConverterEntry; PAGES]
    requires { at + 600 < 2 ^ 32 }
    ensures { (k : ℕ) → k < 600 → entry_at result k ≡ entry_at map.now (at + k) }
{
    let mut run = [NO_ENTRY; PAGES];
    for k in 0..PAGES {
        run[k] = entry_of(map, at + k);
    }
    run
}

/// Whether two maps have the same entries in 600 places from one on.
pub(crate) fn same_run(one: &[ConverterEntry], two: &[ConverterEntry], at: usize) -> bool
    requires { at + 600 < 2 ^ 32 }
    ensures { IsTrue result
        ↔ ((k : ℕ) → k < 600 → entry_at one.now (at + k) ≡ entry_at two.now (at + k)) }
{
    for k in 0..PAGES {
        if entry_of(one, at + k) != entry_of(two, at + k) {
            return false;
        }
    }
    true
}

// Makes the places from one on, up to another, those of the other map.
fn copy_run(into: &mut [ConverterEntry], from: &[ConverterEntry], at: usize, end: usize)
    requires long { length into.old ≡ length from.now }
    requires range { at ≤ end }
    ensures long { length into.new ≡ length into.old }
    ensures run { (q : ℕ) → at ≤ q → q < end → entry_at into.new q ≡ entry_at from.now q }
    ensures others { (q : ℕ) → (q < at) ⊎ (end ≤ q) → entry_at into.new q ≡ entry_at into.old q }
{
    for q in at..end.min(from.len()) {
        into[q] = from[q];
    }
}

// Makes the leaf of a kept map that of the present one.
fn catch_leaf(kept: &mut KeptMap, present: &[ConverterEntry], conv: usize, leaf: usize)
    requires long { length kept.old.entries.items ≡ length present.now }
    requires small { conv ≤ 111 }
    requires leaf { leaf < 110 }
    requires tracked { IsTracked conv present.now kept.old.entries.items kept.old.behind }
    // The result.
    ensures long { length kept.new.entries.items ≡ length kept.old.entries.items }
    ensures tracked { IsTracked conv present.now kept.new.entries.items kept.new.behind }
    ensures flags { length kept.new.behind ≡ length kept.old.behind }
    ensures caught { get_or kept.new.behind leaf true ≡ false }
    ensures others { (i : ℕ) → get_or kept.old.behind i true ≡ false
        → get_or kept.new.behind i true ≡ false }
    ensures own { (q : ℕ) → q < conv
        → entry_at kept.new.entries.items q ≡ entry_at kept.old.entries.items q }
{
    if kept.behind[leaf] {
        let at = conv + PAGES * leaf;
        copy_run(&mut kept.entries, present, at, at + PAGES);
        kept.behind[leaf] = false;
    }
}

/// Makes a kept map the present one: copies the leaves that may differ, and the converter's
/// own pages.
pub(crate) fn catch_up(kept: &mut KeptMap, present: &[ConverterEntry], conv: usize)
    requires long { length kept.old.entries.items ≡ length present.now }
    requires small { (conv ≤ 111) × (length present.now ≤ conv + 66000) }
    requires tracked { IsTracked conv present.now kept.old.entries.items kept.old.behind }
    ensures same { kept.new.entries.items ≡ present.now }
    ensures flags { length kept.new.behind ≡ 110 }
    ensures tracked { IsTracked conv present.now kept.new.entries.items kept.new.behind }
{
    copy_run(&mut kept.entries, present, 0, conv);
    for leaf in 0..LEAVES {
        catch_leaf(kept, present, conv, leaf);
    }
}

// Whether the block that a page had at the last savepoint serves no map that stays.
fn is_left(
    marks: &Marks,
    present: &[ConverterEntry],
    saved: &[ConverterEntry],
    frozen: &[ConverterEntry],
    place: usize,
) -> bool
    requires long { (length present.now ≡ length saved.now)
        × (length frozen.now ≡ length saved.now) }
    requires place { place < length saved.now }
    requires small { block_of saved.now place < length marks.now }
    ensures { IsTrue result
        ↔ LeavesIn present.now saved.now frozen.now marks.now place (block_of saved.now place) }
{
    let b = saved[place].block;
    b != 0 && present[place].block != b && frozen[place].block != b && !marks.marked(b)
}

// Frees each block that only the last savepoint's map has, in the places from one on, up to
// another.
fn give_run(
    free: &mut FreeBlocks,
    marks: &Marks,
    present: &[ConverterEntry],
    saved: &[ConverterEntry],
    frozen: &[ConverterEntry],
    at: usize,
    end: usize,
)
    requires long { (length present.now ≡ length saved.now)
        × (length frozen.now ≡ length saved.now) }
    requires area { length marks.now ≡ length free.old }
    requires range { at ≤ end }
    requires small { (q : ℕ) → block_of saved.now q < length free.old }
    requires apart { (p q : ℕ) → 0 < block_of saved.now p
        → block_of saved.now p ≡ block_of saved.now q → p ≡ q }
    requires taken { (q : ℕ) → at ≤ q → 0 < block_of saved.now q
        → IsFree free.old (block_of saved.now q) → ⊥ }
    ensures { FreesLeaving (LeavesIn present.now saved.now frozen.now marks.now) at end free.old
        free.new }
{
    for k in at..end.min(saved.len()) {
        if is_left(marks, present, saved, frozen, k) {
            free.give(saved[k].block);
        }
    }
}

// The same in one leaf, which is passed over where the present map has the same there.
fn give_leaf(
    free: &mut FreeBlocks,
    marks: &Marks,
    present: &[ConverterEntry],
    saved: &KeptMap,
    frozen: &[ConverterEntry],
    at: usize,
    leaf: usize,
)
    requires long { (length present.now ≡ length saved.now.entries.items)
        × (length frozen.now ≡ length saved.now.entries.items) }
    requires area { length marks.now ≡ length free.old }
    requires leaf { (leaf < 110) × (at < 2 ^ 20) }
    requires small { (q : ℕ) → block_of saved.now.entries.items q < length free.old }
    requires apart { (p q : ℕ) → 0 < block_of saved.now.entries.items p
        → block_of saved.now.entries.items p ≡ block_of saved.now.entries.items q → p ≡ q }
    requires taken { (q : ℕ) → at ≤ q → 0 < block_of saved.now.entries.items q
        → IsFree free.old (block_of saved.now.entries.items q) → ⊥ }
    requires tracked { get_or saved.now.behind leaf true ≡ false → (k : ℕ) → k < 600
        → entry_at saved.now.entries.items (at + k) ≡ entry_at present.now (at + k) }
    // The result.
    ensures { FreesLeaving (LeavesIn present.now saved.now.entries.items frozen.now marks.now) at
        (at + 600) free.old free.new }
{
    if saved.behind[leaf] {
        give_run(free, marks, present, &saved.entries, frozen, at, at + PAGES);
    }
}

/// Frees each block that only the last savepoint's map has.
pub(crate) fn give_left(
    free: &mut FreeBlocks,
    marks: &Marks,
    present: &[ConverterEntry],
    saved: &KeptMap,
    frozen: &[ConverterEntry],
    conv: usize,
)
    requires long { (length present.now ≡ length saved.now.entries.items)
        × (length frozen.now ≡ length saved.now.entries.items) }
    requires area { length marks.now ≡ length free.old }
    requires few { (conv ≤ 111) × (length saved.now.entries.items ≤ conv + 66000) }
    requires small { (q : ℕ) → block_of saved.now.entries.items q < length free.old }
    requires apart { (p q : ℕ) → 0 < block_of saved.now.entries.items p
        → block_of saved.now.entries.items p ≡ block_of saved.now.entries.items q → p ≡ q }
    requires taken { (q : ℕ) → 0 < block_of saved.now.entries.items q
        → IsFree free.old (block_of saved.now.entries.items q) → ⊥ }
    requires tracked { IsTracked conv present.now saved.now.entries.items saved.now.behind }
    // The result.
    ensures { FreesLeaving (LeavesIn present.now saved.now.entries.items frozen.now marks.now) 0
        (length saved.now.entries.items) free.old free.new }
{
    give_run(free, marks, present, &saved.entries, frozen, 0, conv);
    for leaf in 0..LEAVES {
        give_leaf(
            free,
            marks,
            present,
            saved,
            frozen,
            conv + PAGES * leaf,
            leaf,
        );
    }
}

/// Makes a kept map hold nothing, as the present one does.
pub(crate) fn make_empty(kept: &mut KeptMap)
    ensures entries { kept.new.entries.items ≡ replicate (length kept.old.entries.items) no_entry }
    ensures behind { kept.new.behind ≡ replicate 110 false }
{
    blank(&mut kept.entries);
    kept.behind = [false; LEAVES];
}

/// Makes the list hold nothing.
pub(crate) fn blank(map: &mut [ConverterEntry])
    ensures { map.new ≡ replicate (length map.old) no_entry }
{
    map.fill(NO_ENTRY);
}
