//! What moving the beginning of a log leaves. The function does nothing: its contract is the law.
ghost use Rattle.std.specs.Prelude.{ℕ, ◌+◌, List, ◌++◌, length};
ghost use Rattle.mdb_model.specs.declared.change.Commit.{Commit};
ghost use Rattle.mdb_model.specs.declared.name.Name.{Name};
ghost use Rattle.mdb_bytes.specs.LogReading.{IsLog, log_bytes};
ghost use Rattle.redo_ring.specs.Ring.{IsDue};

/// A log that begins after its first commits has the others, and a group that had room after it has
/// room still. So a savepoint or a backup may move where it begins.
pub fn a_later_beginning_is_due()
    ensures log { (ring : ℕ → ℕ) (name : Name) (position after : ℕ) (done rest : List Commit)
        → IsLog ring name position after (done ++ rest)
        → IsLog ring name (position + log_bytes done) (after + length done) rest }
    ensures due { (size : ℕ) (name : Name) (end last n : ℕ) (ring : ℕ → ℕ) (position after : ℕ)
        (done rest : List Commit)
        → IsDue size name end last n ring position after (done ++ rest)
        → IsDue size name end last n ring (position + log_bytes done) (after + length done) rest }
{}
