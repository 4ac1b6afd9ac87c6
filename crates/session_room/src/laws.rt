//! What the changes of all sessions need suffices for the commit of each, and no end of a
//! transaction needs more. The functions do nothing: their contracts are the laws.
ghost use Rattle.std.specs.Prelude.{◌≡◌, ◌≢◌, ℕ, ◌+◌, ◌≤◌, true, false, Contains};
ghost use Rattle.mdb_model.specs.Space.{need, has_room, commit_has_room, kept_for_snapshots};
ghost use Rattle.mdb_model.specs.Space.{kept_for_backup};
ghost use Rattle.mdb_model.specs.History.{tables_of};
ghost use Rattle.mdb_model.specs.Sessions.{net_changes, conflict};
ghost use Rattle.mdb_model.specs.Steps.{committed_by};
ghost use Rattle.mdb_model.specs.Worlds.{World, Lock, transaction, without_transaction};
ghost use Rattle.session_room.specs.SessionRoom.{AreChangesLocked, ChangesAreApart};

/// Sessions whose changes are locked, and whose locks do not conflict, have changed no place twice.
pub fn locked_changes_are_apart()
    ensures { (w : World) → AreChangesLocked w
        → ((one two : ℕ) (a b : Lock) → one ≢ two → Contains (transaction w one).locks a
        → Contains (transaction w two).locks b → conflict a b ≡ false)
        → ChangesAreApart w }
{}

/// Where what a world needs leaves 160 blocks for a savepoint, the commit of each session has room,
/// as it is given and as the log has it; and the rows after it have room as they are.
pub fn a_commit_has_room()
    ensures given { (w : World) (session : ℕ) → ChangesAreApart w → need w + 160 ≤ w.blocks
        → commit_has_room (tables_of w.history) (transaction w session).changes
        (kept_for_snapshots w + kept_for_backup w) w.blocks ≡ true }
    ensures logged { (w : World) (session : ℕ) → ChangesAreApart w → need w + 160 ≤ w.blocks
        → commit_has_room (tables_of w.history) (net_changes (transaction w session).changes)
        (kept_for_snapshots w + kept_for_backup w) w.blocks ≡ true }
    ensures after { (w : World) (session : ℕ) → ChangesAreApart w → need w + 160 ≤ w.blocks
        → has_room (tables_of (committed_by w session).history)
        (tables_of (committed_by w session).history) 0
        (kept_for_snapshots w + kept_for_backup w) w.blocks ≡ true }
{}

/// A rollback needs no more than there was.
pub fn a_rollback_needs_no_more()
    ensures { (w : World) (session : ℕ) → ChangesAreApart w
        → need (without_transaction w session) ≤ need w }
{}

/// Neither does a commit.
pub fn a_commit_needs_no_more()
    ensures { (w : World) (session : ℕ) → ChangesAreApart w
        → need (committed_by w session) ≤ need w }
{}
