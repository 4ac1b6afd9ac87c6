//! What is known of a world, and what that needs. The functions do nothing: their contracts are the
//! laws.
ghost use Rattle.std.specs.Prelude.{◌≡◌, ℕ, ◌+◌, ◌^◌, ◌<◌, ◌≤◌, List, [], None, true, false};
ghost use Rattle.std.specs.Prelude.{length, slice_index};
ghost use Rattle.std.specs.FinMap.{empty};
ghost use Rattle.mdb_model.specs.declared.change.Change.{Change};
ghost use Rattle.mdb_model.specs.History.{tables_of};
ghost use Rattle.mdb_model.specs.Space.{has_room, need, present, table_cost, tree_pages};
ghost use Rattle.mdb_model.specs.Space.{undo_now};
ghost use Rattle.mdb_model.specs.Steps.{changed, committed_by, rows_of};
ghost use Rattle.mdb_model.specs.Tables.{Tables, with_changes};
ghost use Rattle.mdb_model.specs.Worlds.{World, created, without_transaction};
ghost use Rattle.space_rule.specs.KnownCosts.{KnownCosts, all_table_pages, need_of, undo_of};
ghost use Rattle.space_rule.specs.KnownCosts.{changes_at, noted, ended};
ghost use Rattle.session_room.specs.SessionRoom.{ChangesAreApart};
ghost use Rattle.known_needs.specs.KnownNeeds.{IsKnownOf, length_seen, nothing_known};

/// At first no row and no change is known: so it is of a database that was just created.
pub fn nothing_is_known_at_first()
    ensures { (birth blocks ring : ℕ)
        → IsKnownOf (nothing_known blocks) (created birth blocks ring) }
{}

/// Where the committed cost of each table is loaded and no change is open, what is known is of a
/// database without sessions, snapshots and a backup under way.
pub fn what_is_loaded_is_known()
    ensures { (known : KnownCosts) (w : World) → known.blocks ≡ w.blocks → known.kept ≡ 0
        → w.snapshots ≡ empty → w.backup_task ≡ None → w.sessions ≡ empty
        → ((table : ℕ) → 1 ≤ table → table ≤ 500 → slice_index known.committed table
        ≡ table_cost (tables_of w.history) (tables_of w.history) table)
        → ((session : ℕ) → changes_at known.sessions session ≡ [])
        → IsKnownOf known w }
{}

/// The undo pages are those of the world.
pub fn undo_is_known()
    ensures { (known : KnownCosts) (w : World) → IsKnownOf known w
        → undo_of known.sessions ≡ undo_now w }
{}

/// The pages of all tables are those of the rows with the changes of all sessions.
pub fn pages_are_known()
    ensures { (known : KnownCosts) (w : World) → IsKnownOf known w → ChangesAreApart w
        → all_table_pages known.committed known.sessions
        ≡ tree_pages (tables_of w.history) (present w) }
{}

/// The need is that of the world.
pub fn what_is_known_is_needed()
    ensures { (known : KnownCosts) (w : World) → IsKnownOf known w → ChangesAreApart w
        → need_of known ≡ need w }
{}

/// A change that is noted, with the length that its session sees, is known of the world after it.
pub fn a_noted_change_is_known()
    ensures { (known : KnownCosts) (w : World) (session : ℕ) (change : Change)
        → IsKnownOf known w → session < length known.sessions
        → IsKnownOf (noted known session change (length_seen w session change))
        (changed w session change) }
{}

/// A session that rolled back has no open changes.
pub fn a_rollback_is_known()
    ensures { (known : KnownCosts) (w : World) (session : ℕ) → IsKnownOf known w
        → IsKnownOf (ended known session false) (without_transaction w session) }
{}

/// A commit puts the costs of the changed rows in place of those before.
pub fn a_commit_is_known()
    ensures { (known : KnownCosts) (w : World) (session : ℕ) → IsKnownOf known w
        → ChangesAreApart w → 500 < length known.committed
        → IsKnownOf (ended known session true) (committed_by w session) }
{}

/// A table has at most 2^40 rows where its rows fit into an area of at most 65,536 blocks, and each
/// change makes one more at most.
pub fn rows_that_fit_are_few()
    ensures rows { (rows : Tables) (kept blocks table : ℕ) → 1 ≤ table → table ≤ 500
        → has_room rows rows 0 kept blocks ≡ true → blocks ≤ 65536
        → length (rows_of rows table) ≤ 2 ^ 40 }
    ensures changed { (rows : Tables) (changes : List Change) (table : ℕ)
        → length (rows_of (with_changes changes rows) table)
        ≤ length (rows_of rows table) + length changes }
{}
