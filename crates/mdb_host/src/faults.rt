//! Counts of faults.
ghost use Rattle.std.specs.Prelude.{◌≤◌};
ghost use Rattle.mdb_model.specs.Causes.{Rose};

use mdb_model::fault::Failed;

/// Counts a fault. The count stands at its last value once it is there.
pub fn rise(count: &mut u64) -> Failed
    ensures rose { Rose count.old count.new }
    ensures later { count.old ≤ count.new }
{
    *count = count.saturating_add(1);
    Failed
}
