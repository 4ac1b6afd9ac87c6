//! The free blocks of an area. What holds of them at any time (`IsPacked`):
//!
//! 1. There is a bit for each block, of 65,536 blocks at most.
//! 2. No bit past the last block is set.
//! 3. No word before `low` has a bit that is set.
//! 4. `count` is the number of bits that are set.
ghost use Rattle.std.specs.Prelude.{◌≡◌, ◌↔◌, ℕ, ◌<◌, ◌≤◌};
ghost use Rattle.std.specs.Prelude.{length, replicate, IfOk, IsTrue, MatchOption, slice_set};
ghost use Rattle.std.specs.Prelude.{get_or, true, false};
ghost use Rattle.mdb_model.specs.declared.limits.TheConstants.{MOST_BLOCKS};
ghost use Rattle.free_blocks.specs.Free.{IsFree, IsLeastFree, free_count, has_bit, IsFirstBit};

use mdb_model::fault::Memory;
use std::alloc::Global;
use std::marker::Model;

// Blocks of one word.
const BITS: usize = 64;

/// Which blocks of an area are free, in one bit a block. It is seen as a list of tests, one for
/// each block from 0 on.
#[derive(Drop)]
pub struct FreeBlocks {
    words: Vec<u64>,
    blocks: u32,
    // no word before this one has a free block
    low: usize,
    count: u32,
}

impl Model for FreeBlocks {
    ghost use Rattle.std.specs.Prelude.{List, Bool};
    ghost use Rattle.free_blocks.specs.Free.{flags_of, IsPacked};

    ghost Value = { List Bool };

    ghost view = { λ s. flags_of s.words.items s.blocks };

    ghost invariant = { λ s. IsPacked s.words.items s.blocks s.low s.count };
}

impl FreeBlocks {
    /// No block is free. Out of memory, nothing is kept.
    pub fn new(alloc: Global, blocks: u32) -> Result<FreeBlocks, Memory>
        requires { blocks ≤ MOST_BLOCKS }
        ensures { IfOk result (λ s. s ≡ replicate blocks false) }
    {
        let Ok(words) = vec![in alloc; 0u64; (blocks as usize).div_ceil(BITS)] else {
            return Err(Memory);
        };
        Ok(FreeBlocks {
            words,
            blocks,
            low: 0,
            count: 0,
        })
    }

    /// Makes a block free.
    pub fn give(&mut self, block: u32)
        requires below { block < length self.old }
        requires taken { IsFree self.old block → ⊥ }
        ensures { self.new ≡ slice_set self.old block true }
    {
        let word = block as usize / BITS;
        self.words[word] |= 1 << (block as usize % BITS);
        self.count += 1;
        self.low = self.low.min(word);
    }

    /// Takes the least free block, so that it is free no more.
    pub fn take(&mut self) -> Option<u32>
        ensures { MatchOption
            result
            ((free_count self.old ≡ 0) × (self.new ≡ self.old))
            (λ b. IsLeastFree self.old b × (self.new ≡ slice_set self.old b false)) }
    {
        let Some(b) = first_set(&self.words, self.low) else {
            return None;
        };
        let word = b / BITS;
        self.words[word] &= !(1 << (b % BITS));
        self.count -= 1;
        self.low = word;
        Some(b as u32)
    }

    /// How many blocks are free.
    pub fn count(&self) -> u32
        ensures count { result ≡ free_count self.now }
        ensures bound { length self.now ≤ MOST_BLOCKS }
    {
        self.count
    }

    /// Whether a block is free.
    pub fn is_free(&self, block: u32) -> bool
        requires { block < length self.now }
        ensures { IsTrue result ↔ IsFree self.now block }
    {
        self.words[block as usize / BITS] >> (block as usize % BITS) & 1 == 1
    }
}

// The lowest bit that is set, where no word before `low` has one.
fn first_set(words: &[u64], low: usize) -> Option<usize>
    requires few { length words.now ≤ 1024 }
    requires below { (k : ℕ) → k < low → get_or words.now k 0 ≡ 0 }
    ensures { MatchOption
        result
        ((k : ℕ) → has_bit words.now k ≡ false)
        (λ b. IsFirstBit words.now b) }
{
    for i in low..words.len() {
        let word = words[i];
        if word != 0 {
            return Some(BITS * i + word.trailing_zeros() as usize);
        }
    }
    None
}
