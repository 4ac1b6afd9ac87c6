//! What holds while a commit is appended to the log. The functions do nothing: their contracts are
//! the laws.
ghost use Rattle.std.specs.Prelude.{◌≡◌, ◌⊎◌, ℕ, ◌≤◌, List, Some};
ghost use Rattle.mdb_model.specs.declared.change.Commit.{Commit};
ghost use Rattle.mdb_model.specs.History.{last, commits_above};
ghost use Rattle.mdb_model.specs.Images.{Image};
ghost use Rattle.mdb_model.specs.Sessions.{net_changes};
ghost use Rattle.mdb_model.specs.Steps.{committed_by};
ghost use Rattle.mdb_model.specs.Worlds.{World, Live, off, transaction};
ghost use Rattle.mdb_bytes.specs.declared.log_info.LogInfo.{LogInfo};
ghost use Rattle.mdb_bytes.specs.declared.restart_record.RestartRecord.{RestartRecord};
ghost use Rattle.mdb_bytes.specs.KeptMaps.{KeptMap};
ghost use Rattle.redo_ring.specs.Ring.{Appends, Appended};
ghost use Rattle.mdb_bytes.specs.Rings.{ring_size};
ghost use Rattle.standing.specs.Looks.{Look, look};
ghost use Rattle.standing.specs.WholeStanding.{LookStands, StandsWhole};
ghost use Rattle.standing.specs.Appending.{appended, with_commit, HasRoomFor, LogsAreDue, TakesCommit};

/// While a group is appended to the ring an image shows what it showed, or one commit more in both
/// logs; after it the latter.
pub fn an_append_shows()
    ensures at_each_moment { (old new : Image) (info : LogInfo) (r : RestartRecord)
        (end number : ℕ) (c : Commit) (saved redo : List Commit)
        → LogsAreDue old info r end number c saved redo
        → Appends (ring_size info.pages) r.name end number c.changes old new
        → (look new ≡ look old) ⊎ (look new ≡ appended (look old) saved redo c) }
    ensures after { (old new : Image) (info : LogInfo) (r : RestartRecord) (end number : ℕ)
        (c : Commit) (saved redo : List Commit)
        → LogsAreDue old info r end number c saved redo
        → Appended (ring_size info.pages) r.name end number c.changes old new
        → look new ≡ appended (look old) saved redo c }
{}

/// What an image shows with one commit more in both logs stands for the world with the commit,
/// where the log and the area have room for it. That world is the one of the line COMMIT.
pub fn a_commit_stands()
    ensures of_look { (l : Look) (w : World) (c : Commit) (r : RestartRecord) (map : KeptMap)
        (redo : List Commit) → LookStands l w → w.area ≡ Live → l.restart ≡ Some r
        → l.kept ≡ Some map → l.redo_log ≡ Some redo → w.history.first ≤ w.saved
        → w.saved ≤ last w.history → HasRoomFor l map c w
        → LookStands (appended l (commits_above w.history w.saved) redo c) (with_commit w c) }
    ensures of_line { (w : World) (session : ℕ) → off (committed_by w session)
        ≡ with_commit (off w) (record { changes = net_changes (transaction w session).changes }) }
{}

/// So while a group is appended an image stands for the world or for that with the commit, and
/// after it for the latter.
pub fn an_append_stands()
    ensures at_each_moment { (old new : Image) (w : World) (c : Commit) (info : LogInfo)
        (r : RestartRecord) (map : KeptMap) (end number : ℕ) → StandsWhole old w
        → TakesCommit old w c info r map end number
        → Appends (ring_size info.pages) r.name end number c.changes old new
        → StandsWhole new w ⊎ StandsWhole new (with_commit w c) }
    ensures after { (old new : Image) (w : World) (c : Commit) (info : LogInfo)
        (r : RestartRecord) (map : KeptMap) (end number : ℕ) → StandsWhole old w
        → TakesCommit old w c info r map end number
        → Appended (ring_size info.pages) r.name end number c.changes old new
        → StandsWhole new (with_commit w c) }
{}
