//! Marks of blocks, sixteen kinds of them.
ghost use Rattle.std.specs.Prelude.{◌≡◌, ◌↔◌, ℕ, ◌<◌, length, replicate, IfOk, IsTrue, true, false};
ghost use Rattle.free_blocks.specs.Marked.{HasMark, IsMarked, with_mark};

use mdb_model::fault::Memory;
use std::alloc::Global;
use std::marker::Model;

/// The marks that each block of an area has, in two bytes a block. It is seen as a list of tests
/// for each block from 0 on, one test for each of the marks 0 to 15.
#[derive(Drop)]
pub struct Marks {
    bits: Vec<u16>,
}

impl Model for Marks {
    ghost use Rattle.std.specs.Prelude.{List, Bool};
    ghost use Rattle.free_blocks.specs.Marked.{marks_of};

    ghost Value = { List (List Bool) };

    ghost view = { λ s. marks_of s.bits.items };
}

impl Marks {
    /// No block has a mark. Out of memory, nothing is kept.
    pub fn new(alloc: Global, blocks: u32) -> Result<Marks, Memory>
        ensures { IfOk result (λ s. s ≡ replicate blocks (replicate 16 false)) }
    {
        let Ok(bits) = vec![in alloc; 0u16; blocks as usize] else {
            return Err(Memory);
        };
        Ok(Marks { bits })
    }

    /// Sets a mark of a block, which may have it already.
    pub fn mark(&mut self, block: u32, kind: u8)
        requires below { block < length self.old }
        requires kind { kind < 16 }
        ensures { self.new ≡ with_mark self.old block kind true }
    {
        self.bits[block as usize] |= 1 << kind;
    }

    /// Takes a mark of a block away, which it need not have.
    pub fn unmark(&mut self, block: u32, kind: u8)
        requires below { block < length self.old }
        requires kind { kind < 16 }
        ensures { self.new ≡ with_mark self.old block kind false }
    {
        self.bits[block as usize] &= !(1 << kind);
    }

    /// Whether a block has a mark of this kind.
    pub fn has(&self, block: u32, kind: u8) -> bool
        requires below { block < length self.now }
        requires kind { kind < 16 }
        ensures { IsTrue result ↔ HasMark self.now block kind }
    {
        self.bits[block as usize] >> kind & 1 == 1
    }

    /// Whether a block has any mark.
    pub fn marked(&self, block: u32) -> bool
        requires { block < length self.now }
        ensures { IsTrue result ↔ IsMarked self.now block }
    {
        self.bits[block as usize] != 0
    }
}
