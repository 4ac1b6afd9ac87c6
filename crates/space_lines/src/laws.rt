//! What a world that is counted has room for. The functions do nothing: their contracts are the
//! laws.
ghost use Rattle.std.specs.Prelude.{◌≡◌, ℕ, ◌+◌, ◌<◌, true, List, [], ◌∷◌, length, Some, IsTrue};
ghost use Rattle.std.specs.FinMap.{empty};
ghost use Rattle.mdb_model.specs.Answers.{Answer};
ghost use Rattle.mdb_model.specs.History.{tables_of};
ghost use Rattle.mdb_model.specs.Runs.{Entry};
ghost use Rattle.mdb_model.specs.declared.name.Session.{Session};
ghost use Rattle.mdb_model.specs.declared.name.Table.{Table};
ghost use Rattle.mdb_model.specs.declared.script.Command.TheVariants.{GetRow, ScanTable};
ghost use Rattle.mdb_model.specs.Sessions.{net_changes};
ghost use Rattle.mdb_model.specs.Space.{commit_has_room, has_room, kept_for_backup};
ghost use Rattle.mdb_model.specs.Space.{kept_for_snapshots, need};
ghost use Rattle.mdb_model.specs.Script.{is_session};
ghost use Rattle.mdb_model.specs.Steps.{has_changes, locked};
ghost use Rattle.mdb_model.specs.Worlds.{World, Lock, transaction};
ghost use Rattle.session_rows.specs.Replies.{IsOfSession};
ghost use Rattle.session_rows.specs.Serving.{no_pages};
ghost use Rattle.space_rule.specs.KnownCosts.{KnownCosts, need_of};
ghost use Rattle.known_needs.specs.KnownNeeds.{IsKnownOf};
ghost use Rattle.space_lines.specs.Counted.{IsCounted};

/// A world without sessions is counted where it is known and its rows have room as they are.
pub fn a_world_without_sessions_is_counted()
    ensures { (known : KnownCosts) (w : World) → IsKnownOf known w → w.sessions ≡ empty
        → 500 < length known.committed → 64 < length known.sessions
        → has_room (tables_of w.history) (tables_of w.history) 0
        (kept_for_snapshots w + kept_for_backup w) w.blocks ≡ true
        → IsCounted known w }
{}

/// The need of a world that is counted is what the space rule knows.
pub fn the_need_is_counted()
    ensures { (known : KnownCosts) (w : World) → IsCounted known w → need_of known ≡ need w }
{}

/// The commit of each session has room, as the log has it, before it is appended.
pub fn a_counted_commit_has_room()
    ensures { (known : KnownCosts) (w : World) (session : ℕ) → IsCounted known w
        → IsTrue (has_changes w session)
        → commit_has_room (tables_of w.history) (net_changes (transaction w session).changes)
        (kept_for_snapshots w + kept_for_backup w) w.blocks ≡ true }
{}

/// A line that only locks, as one that reads, leaves it counted.
pub fn a_lock_leaves_it_counted()
    ensures { (known : KnownCosts) (w : World) (session : ℕ) (lock : Lock)
        → IsTrue (is_session session) → IsCounted known w
        → IsCounted known (locked w session lock) }
{}

/// A line that reads, with a reply of a session, leaves it counted.
pub fn a_read_leaves_it_counted()
    ensures row { (known : KnownCosts) (w after : World) (session : Session) (table : Table)
        (key : List ℕ) (answer : Answer) → IsTrue (is_session session.0)
        → IsOfSession answer.reply → IsCounted known w
        → Entry no_pages (w ∷ []) (Some (GetRow session table key)) answer (after ∷ [])
        → IsCounted known after }
    ensures table { (known : KnownCosts) (w after : World) (session : Session) (table : Table)
        (answer : Answer) → IsTrue (is_session session.0)
        → IsOfSession answer.reply → IsCounted known w
        → Entry no_pages (w ∷ []) (Some (ScanTable session table)) answer (after ∷ [])
        → IsCounted known after }
{}
