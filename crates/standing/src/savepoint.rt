//! What holds while a savepoint switches the restart record. The functions do nothing: their
//! contracts are the laws.
ghost use Rattle.std.specs.Prelude.{◌≡◌, ◌⊎◌, ℕ, ◌<◌, ◌≤◌, List, Option, Some, IsTrue, get_or};
ghost use Rattle.mdb_model.specs.declared.change.Commit.{Commit};
ghost use Rattle.mdb_model.specs.Images.{Image};
ghost use Rattle.mdb_model.specs.Worlds.{World, Live};
ghost use Rattle.mdb_bytes.specs.declared.log_info.LogInfo.{LogInfo};
ghost use Rattle.mdb_bytes.specs.declared.restart_record.RestartRecord.{RestartRecord};
ghost use Rattle.mdb_bytes.specs.KeptMaps.{KeptMap};
ghost use Rattle.mdb_bytes.specs.Stages.{one_generation};
ghost use Rattle.gate_slots.specs.declared.slots.Slots.{Slots};
ghost use Rattle.gate_slots.specs.declared.body.SlotBody.TheVariants.{Restart};
ghost use Rattle.gate_slots.specs.Slots.{IsReady};
ghost use Rattle.gate_slots.specs.Steps.{Switches};
ghost use Rattle.standing.specs.Standing.{data_slots};
ghost use Rattle.standing.specs.Looks.{Look, look, IsUnused};
ghost use Rattle.standing.specs.WholeStanding.{LookStands, StandsWhole};
ghost use Rattle.standing.specs.Switching.{shown_with, switched, IsSlotBlock, IsNext, IsNewMap, SwitchesTo, TellsSaved, KeepsSaved, next_idle};

/// After a switch of the restart record's slots an image shows what it showed, or what it would
/// show with the next record in force. This holds of any new record with the same volumes.
pub fn a_switch_shows()
    ensures { (slots : Slots) (r next : RestartRecord) (old new : Image)
        → slots.place ≡ data_slots → IsReady slots (Restart r) old
        → Switches slots (Restart next) old new → 2 ≤ get_or r.volumes.items 0 0
        → next.volumes ≡ r.volumes → IsUnused (look old) r IsSlotBlock
        → IsUnused (shown_with old next) next IsSlotBlock
        → (look new ≡ look old) ⊎ (look new ≡ shown_with old next) }
{}

/// A savepoint leaves the world: what an image shows with the next record, its map and the log after
/// it stands for the world that it stood for. So at each moment of the switch an image shows the one
/// or the other, and stands for this world.
pub fn a_savepoint_stands()
    ensures of_look { (l : Look) (w : World) (r next : RestartRecord) (map : KeptMap)
        (log : List Commit) → LookStands l w → w.area ≡ Live → l.restart ≡ Some r
        → IsNext l.media r next → KeepsSaved l.media l.log_info r next
        → IsNewMap l next map log w → LookStands (switched l next map log) w }
    ensures shows { (slots : Slots) (r next : RestartRecord) (old new : Image) (w : World)
        (map : KeptMap) (done rest : List Commit) → StandsWhole old w → w.area ≡ Live
        → SwitchesTo slots r next old new map done rest w
        → (look new ≡ look old) ⊎ (look new ≡ switched (look old) next map rest) }
    ensures of_image { (slots : Slots) (r next : RestartRecord) (old new : Image) (w : World)
        (map : KeptMap) (done rest : List Commit) → StandsWhole old w → w.area ≡ Live
        → SwitchesTo slots r next old new map done rest w → StandsWhole new w }
{}

/// The saved point stays where the log info is not of an earlier generation than the record, and
/// where the mark stays.
pub fn a_saved_point_stays()
    ensures told { (r next : RestartRecord) (info : Option LogInfo)
        (media : ℕ → Option (List ℕ)) → next.name ≡ r.name → TellsSaved info r
        → KeepsSaved media info r next }
    ensures unmoved { (r next : RestartRecord) (info : Option LogInfo)
        (media : ℕ → Option (List ℕ)) → next.name ≡ r.name → next.commit ≡ r.commit
        → next.position ≡ r.position → KeepsSaved media info r next }
    ensures in_one_generation { (l : Look) (w : World) (r : RestartRecord) → LookStands l w
        → IsTrue one_generation → l.restart ≡ Some r → TellsSaved l.log_info r }
{}

/// Where the log info is of an earlier generation, a savepoint moves the saved point: then it stands
/// for the world only if its mark is what was saved.
pub fn an_untold_point_moves()
    ensures { (l : Look) (w : World) (info : LogInfo) (next : RestartRecord) (map : KeptMap)
        (log : List Commit) → l.log_info ≡ Some info
        → info.name.generation < next.name.generation
        → LookStands (switched l next map log) w → next.commit ≡ w.saved }
{}

/// The premises can be met: from each look that stands, by a savepoint that changes no page.
pub fn an_idle_savepoint_stands()
    ensures { (l : Look) (w : World) → LookStands l w → w.area ≡ Live
        → (r : RestartRecord) (map : KeptMap) (log : List Commit) → l.restart ≡ Some r
        → l.kept ≡ Some map → l.redo_log ≡ Some log
        → LookStands (switched l (next_idle r) map log) w }
{}
