//! Which calls are to fail.
ghost use Rattle.std.specs.Prelude.{◌≡◌, ◌==◌, ◌+◌, ◌-◌, ◌^◌, min, IfOk};
ghost use Rattle.std.specs.List.{list_any};

use std::alloc::{AllocError, Global};

/// The numbers, from 1, of the calls that are to fail, and how many calls there were.
#[derive(Drop)]
pub struct FaultPlan {
    fails: Vec<u64>,
    calls: u64,
}

impl FaultPlan {
    pub fn new(alloc: Global, fails: &[u64]) -> Result<FaultPlan, AllocError>
        ensures fails { IfOk result (λ plan. plan.fails.items ≡ fails.now) }
        ensures calls { IfOk result (λ plan. plan.calls ≡ 0) }
    {
        let fails = Vec::from_slice(alloc, fails)?;
        Ok(FaultPlan { fails, calls: 0 })
    }

    /// Counts a call, and tells whether it is to fail.
    pub fn is_due(&mut self) -> bool
        ensures fails { self.new.fails ≡ self.old.fails }
        ensures calls { self.new.calls ≡ min (self.old.calls + 1) (2 ^ 64 - 1) }
        ensures due { result ≡ list_any (λ number. number == self.new.calls) self.old.fails.items }
    {
        self.calls = self.calls.saturating_add(1);
        self.fails.contains(&self.calls)
    }
}
