//! What calls on pages, an append to the log and a savepoint leave of a database in service. The
//! functions do nothing: their contracts are the laws.
ghost use Rattle.std.specs.Prelude.{◌≡◌, ◌⊎◌, ℕ, List, [], ◌∷◌, ◌++◌};
ghost use Rattle.mdb_model.specs.declared.change.Commit.{Commit};
ghost use Rattle.mdb_model.specs.declared.fault.Device.TheVariants.{Log};
ghost use Rattle.mdb_model.specs.History.{tables_of};
ghost use Rattle.mdb_model.specs.Tables.{Tables, with_changes, with_commits};
ghost use Rattle.mdb_model.specs.Worlds.{World};
ghost use Rattle.mdb_host.specs.Disk.{Disk, Goes, Arrives, AgreeBut};
ghost use Rattle.mdb_bytes.specs.declared.log_info.LogInfo.{LogInfo};
ghost use Rattle.mdb_bytes.specs.declared.restart_record.RestartRecord.{RestartRecord};
ghost use Rattle.mdb_bytes.specs.Rings.{ring_size};
ghost use Rattle.gate_slots.specs.declared.slots.Slots.{Slots};
ghost use Rattle.redo_ring.specs.Ring.{Appends, Appended};
ghost use Rattle.converter.specs.Maps.{IsSoundMaps, block_of};
ghost use Rattle.page_store.specs.Stamps.{AreStamped};
ghost use Rattle.page_store.specs.Store.{Store, block_count};
ghost use Rattle.page_store.specs.Steps.{KeepsStore};
ghost use Rattle.page_store.specs.WholeSavepoint.{CanSave, IsInArea, IsSameArea, Saves, next_record};
ghost use Rattle.store_rows.specs.StoredRows.{stored_rows, HasRows};
ghost use Rattle.standing.specs.Appending.{with_commit};
ghost use Rattle.standing.specs.Looks.{LogPoint, look};
ghost use Rattle.standing.specs.RedoRoom.{IsFirstPart};
ghost use Rattle.standing.specs.WholeStanding.{StandsWhole};
ghost use Rattle.kept_worlds.specs.InService.{IsInService, AllStand, AtEachMoment, EndsAt, IsPlain, HasRoomToCommit, LeadsTo, HasRoomToSet};

use mdb_host::Host;

/// Calls on pages leave what each image shows, and the database in service.
pub fn calls_keep_service<H: Host>()
    ensures looks { (slots : Slots) (r : RestartRecord) (info : LogInfo) (saved : LogPoint)
        (log : List Commit) (s t : Store) (d e : H)
        → IsInService H.tells slots r info saved log s (H.disk d)
        → KeepsStore H.tells s t (H.disk d) (H.disk e)
        → Goes (H.disk d) (H.disk e) (λ before image. look image ≡ look before) }
    ensures service { (slots : Slots) (r : RestartRecord) (info : LogInfo) (saved : LogPoint)
        (log : List Commit) (s t : Store) (d e : H)
        → IsInService H.tells slots r info saved log s (H.disk d)
        → KeepsStore H.tells s t (H.disk d) (H.disk e)
        → IsInService H.tells slots r info saved log t (H.disk e) }
{}

/// While a commit is appended to the log each image stands for the world, or for the world with the
/// commit; after it for the latter, and the database is in service with one commit more to redo.
pub fn an_append_keeps_service<H: Host>()
    ensures at_each_moment { (slots : Slots) (r : RestartRecord) (info : LogInfo)
        (saved : LogPoint) (log : List Commit) (s : Store) (d e : H) (w : World)
        (end number : ℕ) (c : Commit)
        → IsInService H.tells slots r info saved log s (H.disk d)
        → AllStand w (H.disk d) → IsPlain w → EndsAt r log end number
        → HasRoomToCommit w r saved (ring_size info.pages) end c
        → Goes (H.disk d) (H.disk e)
        (Appends (ring_size info.pages) r.name end number c.changes)
        → AtEachMoment (H.disk d) (H.disk e)
        (λ image. StandsWhole image w ⊎ StandsWhole image (with_commit w c)) }
    ensures after { (slots : Slots) (r : RestartRecord) (info : LogInfo) (saved : LogPoint)
        (log : List Commit) (s : Store) (d e : H) (w : World) (end number : ℕ) (c : Commit)
        → IsInService H.tells slots r info saved log s (H.disk d)
        → AllStand w (H.disk d) → IsPlain w → EndsAt r log end number
        → HasRoomToCommit w r saved (ring_size info.pages) end c
        → Arrives (H.disk d) (H.disk e)
        (Appended (ring_size info.pages) r.name end number c.changes)
        → AgreeBut Log (H.disk d).seen (H.disk e).seen
        → IsInService H.tells slots r info saved (log ++ c ∷ []) s (H.disk e)
        × AllStand (with_commit w c) (H.disk e) }
{}

/// A savepoint leaves the world: at each moment of it each image stands for it. After it the
/// database is in service with the next record, and with the commits to redo that were not set.
pub fn a_savepoint_keeps_service<H: Host>()
    ensures at_each_moment { (slots : Slots) (r : RestartRecord) (info : LogInfo)
        (saved : LogPoint) (done rest : List Commit) (s : Store) (d e : H) (w : World)
        (commit position : ℕ)
        → IsInService H.tells slots r info saved (done ++ rest) s (H.disk d)
        → IsSoundMaps s.maps → HasRows H.tells s (H.disk d).seen
        → EndsAt r done position commit
        → Saves s slots r commit position (H.disk d) (H.disk e)
        → AllStand w (H.disk d) → IsPlain w
        → LeadsTo w rest (stored_rows s (H.disk d).seen)
        → AtEachMoment (H.disk d) (H.disk e) (λ image. StandsWhole image w) }
    ensures after { (slots slots_now : Slots) (r next : RestartRecord) (info : LogInfo)
        (saved : LogPoint) (done rest : List Commit) (s t : Store) (d e : H) (w : World)
        (commit position : ℕ)
        → IsInService H.tells slots r info saved (done ++ rest) s (H.disk d)
        → IsSoundMaps s.maps → HasRows H.tells s (H.disk d).seen
        → EndsAt r done position commit
        → Saves s slots r commit position (H.disk d) (H.disk e)
        → AllStand w (H.disk d) → IsPlain w
        → LeadsTo w rest (stored_rows s (H.disk d).seen)
        → CanSave H.tells slots_now next t (H.disk e)
        → next ≡ next_record r s.next commit position (block_of t.maps.saved 0)
        → IsSameArea s t → AreStamped t
        → IsInArea t.maps.conv (block_count t) t.maps.saved
        → IsInService H.tells slots_now next info saved rest t (H.disk e)
        × AllStand w (H.disk e) }
{}

/// Commits that have room to be set on rows, have it still once the first one is set. And the rows
/// with a first part of the first commit lead to the world that all of them lead to.
pub fn commits_are_set()
    ensures rest { (blocks : ℕ) (commit : Commit) (commits : List Commit) (rows : Tables)
        → HasRoomToSet blocks (commit ∷ commits) rows
        → HasRoomToSet blocks commits (with_changes commit.changes rows) }
    ensures part { (w : World) (undone : List Commit) (before now : Tables)
        → with_commits undone before ≡ tables_of w.history → HasRoomToSet w.blocks undone before
        → IsFirstPart before undone now → LeadsTo w undone now }
{}
