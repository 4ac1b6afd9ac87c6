//! A script in memory.
ghost use Rattle.std.specs.Prelude.{◌≡◌, ◌≤◌, length, drop, Some, IfOk};

use crate::faults::rise;
use crate::plan::FaultPlan;
use crate::source::Source;
use mdb_model::fault::{Failed, Memory};
use std::alloc::{AllocError, Global};

/// Bytes that are handed out in pieces of at most so many bytes.
#[derive(Drop)]
pub struct MemSource {
    bytes: Vec<u8>,
    // how many of them were handed out
    taken: usize,
    piece: usize,
    plan: FaultPlan,
    faults: u64,
    ghost within: { taken ≤ length bytes.items },
    ghost some: { 1 ≤ piece },
}

impl MemSource {
    ghost use Rattle.mdb_host.specs.Pieces.{piece_of, source_fails_of, calls_of};

    fn holding(
        alloc: Global,
        bytes: &[u8],
        piece: usize,
        fails: &[u64],
    ) -> Result<MemSource, AllocError>
        requires { 1 ≤ piece }
        ensures left { IfOk result (λ source. ⟦<MemSource as Source>⟧.left source
            ≡ Some bytes.now) }
        ensures faults { IfOk result (λ source. ⟦<MemSource as Source>⟧.faults source ≡ 0) }
        ensures piece { IfOk result (λ source. piece_of source ≡ piece) }
        ensures fails { IfOk result (λ source. source_fails_of source ≡ fails.now) }
        ensures calls { IfOk result (λ source. calls_of source ≡ 0) }
    {
        let bytes = Vec::from_slice(alloc, bytes)?;
        let plan = FaultPlan::new(alloc, fails)?;
        Ok(MemSource {
            bytes,
            taken: 0,
            piece,
            plan,
            faults: 0,
        })
    }

    /// Hands out at most `piece` bytes a call. `fails` lists the numbers, from 1, of the calls that
    /// are to fail.
    pub fn new(
        alloc: Global,
        bytes: &[u8],
        piece: usize,
        fails: &[u64],
    ) -> Result<MemSource, Memory>
        requires { 1 ≤ piece }
        ensures left { IfOk result (λ source. ⟦<MemSource as Source>⟧.left source
            ≡ Some bytes.now) }
        ensures faults { IfOk result (λ source. ⟦<MemSource as Source>⟧.faults source ≡ 0) }
        ensures piece { IfOk result (λ source. piece_of source ≡ piece) }
        ensures fails { IfOk result (λ source. source_fails_of source ≡ fails.now) }
        ensures calls { IfOk result (λ source. calls_of source ≡ 0) }
    {
        match MemSource::holding(alloc, bytes, piece, fails) {
            Ok(source) => Ok(source),
            Err(_) => Err(Memory),
        }
    }
}

impl Source for MemSource {
    ghost use Rattle.std.specs.Prelude.{◌+◌, ◌-◌, ◌^◌, ◌↔◌, ◌==◌, min, IsErr, IsTrue, OnErr};
    ghost use Rattle.std.specs.List.{list_any};
    ghost use Rattle.mdb_model.specs.Causes.{HasCause};
    ghost use Rattle.mdb_host.specs.Script.{TakesFrom};
    ghost use Rattle.mdb_host.specs.Pieces.{left_of, faults_of, piece_of, source_fails_of, calls_of};

    ghost left = { λ m. Some (drop m.taken m.bytes.items) };

    ghost faults = { λ m. m.faults };

    /// The calls are counted, and those that are listed fail, and no others.
    fn next(&mut self, into: &mut [u8]) -> Result<usize, Failed>
        ensures bound { IfOk result (λ n. n ≤ length into.new) }
        ensures taken { IfOk result
            (λ n. TakesFrom (left_of self.old) (left_of self.new) n into.new) }
        ensures kept { OnErr result (left_of self.new ≡ left_of self.old) }
        ensures cause { HasCause (faults_of self.old) (faults_of self.new) result }
        ensures piece { IfOk result (λ n. n ≤ piece_of self.old) }
        ensures calls { calls_of self.new ≡ min (calls_of self.old + 1) (2 ^ 64 - 1) }
        ensures fails { IsErr result
            ↔ IsTrue (list_any (λ number. number == calls_of self.new) (source_fails_of self.old)) }
        ensures same_piece { piece_of self.new ≡ piece_of self.old }
        ensures same_fails { source_fails_of self.new ≡ source_fails_of self.old }
    {
        if self.plan.is_due() {
            return Err(rise(&mut self.faults));
        }
        let left = &self.bytes[self.taken..];
        let count = self.piece.min(left.len()).min(into.len());
        into[..count].copy_from_slice(&left[..count]);
        self.taken += count;
        Ok(count)
    }
}
