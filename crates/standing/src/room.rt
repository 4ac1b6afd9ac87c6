//! What holds of the room that a restart needs. The functions do nothing: their contracts are the laws.
ghost use Rattle.std.specs.Prelude.{◌≡◌, ℕ, ◌+◌, ◌*◌, ◌≤◌, true, List, [], ◌∷◌, ◌++◌, Some, length, IsTrue};
ghost use Rattle.std.specs.List.{AllByRecursion};
ghost use Rattle.std.specs.FinMap.{len, empty};
ghost use Rattle.mdb_model.specs.declared.change.Change.{Change};
ghost use Rattle.mdb_model.specs.declared.change.Commit.{Commit};
ghost use Rattle.mdb_model.specs.Pages.{committed};
ghost use Rattle.mdb_model.specs.Space.{commit_has_room, has_room, map_has_room, converter_pages, tree_pages};
ghost use Rattle.mdb_model.specs.Tables.{Tables, with_changes, with_commits};
ghost use Rattle.mdb_model.specs.Worlds.{World};
ghost use Rattle.mdb_bytes.specs.declared.restart_record.RestartRecord.{RestartRecord};
ghost use Rattle.mdb_bytes.specs.Forms.{reading};
ghost use Rattle.mdb_bytes.specs.KeptMaps.{KeptMap};
ghost use Rattle.standing.specs.Looks.{Look};
ghost use Rattle.standing.specs.WholeStanding.{HaveRoom, HaveRoomToRedo, RoomStands, blocks_in_use, kept_maps};
ghost use Rattle.standing.specs.RoomRows.{small_rows, growing, stale_rows, filling, clearing};
ghost use Rattle.standing.specs.Switching.{switched};
ghost use Rattle.standing.specs.RedoRoom.{AllApart, places_of, IsFirstPart, MapHasRows, NoMoreCost};

/// Where at each place the larger cost of two states of the tables is at most that of two others, they have at
/// most as many pages, and room where the others have it.
pub fn costs_tell_room()
    ensures pages { (a b c d : Tables) → NoMoreCost a b c d → tree_pages a b ≤ tree_pages c d }
    ensures room { (a b c d : Tables) (undo more kept blocks : ℕ) → NoMoreCost a b c d → undo ≤ more → has_room c d more kept blocks ≡ true → has_room a b undo kept blocks ≡ true }
{}

/// Tables on which a commit has room have room as they are: so has a map with these rows, beside what is kept.
pub fn tables_have_room()
    ensures { (tables : Tables) (changes : List Change) (kept blocks : ℕ) → commit_has_room tables changes kept blocks ≡ true → has_room tables tables 0 kept blocks ≡ true }
{}

/// Commits that had room when they were made have room to be redone, also on rows with a first part of the first
/// one set; and these rows have room.
pub fn admitted_is_redone()
    ensures given { (commits : List Commit) (tables : Tables) (kept blocks : ℕ) → HaveRoom tables commits kept blocks → HaveRoomToRedo tables commits kept blocks }
    ensures inside { (commit : Commit) (commits : List Commit) (tables now : Tables) (kept blocks : ℕ) → IsFirstPart tables (commit ∷ commits) now
        → HaveRoomToRedo tables (commit ∷ commits) kept blocks → HaveRoomToRedo now (commit ∷ commits) kept blocks }
    ensures rows { (commit : Commit) (commits : List Commit) (tables now : Tables) (kept blocks : ℕ) → IsFirstPart tables (commit ∷ commits) now
        → HaveRoomToRedo tables (commit ∷ commits) kept blocks → has_room now now 0 kept blocks ≡ true }
{}

/// A savepoint keeps the room of a restart, between commits and inside one.
pub fn a_savepoint_keeps_room()
    ensures { (l : Look) (w : World) (r next : RestartRecord) (old new : KeptMap) (done rest : List Commit) (start now : Tables) → committed reading old.pages ≡ Some start
        → l.redo_log ≡ Some (done ++ rest) → next.commit ≡ r.commit + length done
        → MapHasRows new now → IsFirstPart (with_commits done start) rest now → RoomStands l r old w
        → AllByRecursion (λ a. IsTrue (map_has_room reading a.pages 0 w.blocks)) (kept_maps (switched l next new rest))
        → 2 + blocks_in_use (switched l next new rest) + (len w.snapshots + 2) * converter_pages w.blocks ≤ w.blocks → RoomStands (switched l next new rest) next new w }
{}

/// Room by the rows of the map, with before images, is lost by changes of the commit that are set: three small
/// rows that a commit makes long.
pub fn room_with_undo_is_lost()
    ensures { HaveRoom small_rows (growing ∷ []) 341 512 × (HaveRoom (with_changes growing.changes small_rows) (growing ∷ []) 341 512 → ⊥) }
{}

/// Room by the history alone does not bound what a restart has to hold: here the map has room, so has each commit
/// of a history that ends with the same rows, and the commits cannot be redone on the map.
pub fn history_is_not_enough()
    ensures { (with_commits (filling ∷ clearing ∷ []) stale_rows ≡ with_commits (filling ∷ clearing ∷ []) empty) × (has_room stale_rows stale_rows 0 341 512 ≡ true)
        × HaveRoom empty (filling ∷ clearing ∷ []) 341 512 × (HaveRoomToRedo stale_rows (filling ∷ clearing ∷ []) 341 512 → ⊥) }
{}
