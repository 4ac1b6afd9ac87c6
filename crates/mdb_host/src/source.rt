//! Where a script comes from.
ghost use Rattle.std.specs.Prelude.{◌≡◌, ◌≤◌, ℕ, List, Option, IfOk, OnErr, length};
ghost use Rattle.mdb_model.specs.Causes.{HasCause};
ghost use Rattle.mdb_host.specs.Script.{TakesFrom};

use mdb_model::fault::Failed;

/// Bytes that come in pieces.
pub trait Source {
    /// The bytes that are left, where that is known.
    ghost left: { Self → Option (List ℕ) };

    /// How often a call has failed.
    ghost faults: { Self → ℕ };

    /// Puts some of the bytes that are left to the front of `into`, and answers how many. None
    /// into a buffer that is not empty is the end. A call that fails takes nothing.
    fn next(&mut self, into: &mut [u8]) -> Result<usize, Failed>
        ensures bound { IfOk result (λ n. n ≤ length into.new) }
        ensures taken { IfOk result (λ n. TakesFrom (left self.old) (left self.new) n into.new) }
        ensures kept { OnErr result (left self.new ≡ left self.old) }
        ensures cause { HasCause (faults self.old) (faults self.new) result };
}
