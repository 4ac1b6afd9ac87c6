//! What calls on pages leave of what an image stands for. The functions do nothing: their contracts
//! are the laws.
ghost use Rattle.std.specs.Prelude.{◌≡◌, ℕ, ◌-◌, ◌+◌, ◌<◌, ◌≤◌, List, get_or, Some};
ghost use Rattle.mdb_model.specs.Images.{Image};
ghost use Rattle.mdb_bytes.specs.declared.converter_pages.ConverterEntry.{ConverterEntry};
ghost use Rattle.mdb_bytes.specs.declared.restart_record.RestartRecord.{RestartRecord};
ghost use Rattle.free_blocks.specs.Free.{free_count};
ghost use Rattle.volume_disk.specs.Blocks.{IsDurable, Writes, block_at};
ghost use Rattle.gate_slots.specs.declared.body.SlotBody.TheVariants.{Restart};
ghost use Rattle.gate_slots.specs.declared.slots.Slots.{Slots};
ghost use Rattle.gate_slots.specs.Slots.{HasBody, IsReady};
ghost use Rattle.converter.specs.Maps.{IsSoundMaps, block_of, entry_at};
ghost use Rattle.converter.specs.Loads.{IsRead};
ghost use Rattle.savepoint.specs.Stands.{HasSavepoint, IsMapPlaced, restart_place};
ghost use Rattle.page_store.specs.Opens.{IsStoreOpened};
ghost use Rattle.page_store.specs.Store.{Store, IsStore, IsKnown, block_count};
ghost use Rattle.page_store.specs.Stamps.{AreStamped};
ghost use Rattle.page_store.specs.Steps.{MayWrite, KeepsStore, frozen_now};
ghost use Rattle.page_store.specs.WholeSavepoint.{CanSave, HasNextMap, next_record};

use mdb_host::Host;

/// Where an image stands for a restart record and the map of the last savepoint, it does so after
/// writes to blocks that calls on pages and turns of a savepoint may write. At each moment of such
/// a call each image comes by such writes from one that was there when it began (`KeepsStore`), so
/// a crash in it leaves the last savepoint whole.
pub fn last_savepoint_stays()
    ensures { (s : Store) (restart : RestartRecord) (pages : ℕ → List ℕ) (before after : Image)
        → 2 ≤ get_or s.sizes 0 0 → IsMapPlaced s.sizes s.maps.saved s.maps.conv
        → Writes s.sizes (MayWrite s) before after
        → HasSavepoint s.sizes restart s.maps.saved s.maps.conv pages before
        → HasSavepoint s.sizes restart s.maps.saved s.maps.conv pages after }
{}

/// What stands on the blocks of a pinned map stays through the same writes, so a backup reads the
/// pages of its savepoint while sessions write and later savepoints come.
pub fn pinned_pages_stay()
    ensures { (s : Store) (pinned : List ConverterEntry) (before after : Image) → IsStore s
        → s.pinned ≡ Some pinned → Writes s.sizes (MayWrite s) before after → (place : ℕ)
        → 0 < block_of pinned place
        → block_at s.sizes after (block_of pinned place)
        ≡ block_at s.sizes before (block_of pinned place) }
{}

/// Calls on pages leave what a whole savepoint needs.
pub fn can_save_stays<H: Host>()
    ensures { (slots : Slots) (restart : RestartRecord) (a b : Store) (d e : H)
        → KeepsStore H.tells a b (H.disk d) (H.disk e) → CanSave H.tells slots restart a (H.disk d)
        → CanSave H.tells slots restart b (H.disk e) }
{}

/// A store that was opened on the record in force, over devices that are synced, has what a whole
/// savepoint needs, where the converter has room and each of its pages a block.
pub fn opened_can_save<H: Host>()
    ensures { (slots : Slots) (restart : RestartRecord) (s : Store) (h : H)
        → HasBody restart_place slots (Restart restart)
        → IsStoreOpened s restart.volumes.items restart.savepoint → IsSoundMaps s.maps → IsStore s
        → s.maps.conv ≤ free_count s.free → 2 ≤ get_or s.sizes 0 0
        → ((q : ℕ) → q < s.maps.conv → 1 < block_of s.maps.saved q)
        → (H.tells → IsKnown H.tells s (H.disk h).seen)
        → (H.tells → IsRead s.maps.conv (block_count s) restart.root
        (block_at s.sizes (H.disk h).seen) (s.maps.conv - 1) s.maps.saved)
        → (H.tells → IsDurable s.sizes (H.disk h))
        → (H.tells → (image : Image) → (H.disk h).may_leave (H.disk h).now image
        → IsReady slots (Restart restart) image)
        → CanSave H.tells slots restart s (H.disk h) }
{}

/// The stamps of a store that was opened on a record are in order, where no page of the record's
/// map carries a greater one than the record's savepoint.
pub fn opened_is_stamped()
    ensures { (s : Store) (sizes : List ℕ) (savepoint : ℕ) → IsStoreOpened s sizes savepoint
        → ((page : ℕ) → (entry_at s.maps.saved (s.maps.conv + page)).stamp ≤ savepoint)
        → AreStamped s }
{}

/// They are so still once the map is frozen for a savepoint.
pub fn frozen_is_stamped()
    ensures { (s : Store) → AreStamped s → AreStamped (frozen_now s) }
{}

/// No page of the map that a whole savepoint writes carries a greater stamp than the record that
/// names the map.
pub fn next_map_is_stamped()
    ensures { (s : Store) (seen image : Image) (was : RestartRecord) (commit position : ℕ)
        (map : List ConverterEntry) → AreStamped s
        → HasNextMap s seen was commit position map image → (page : ℕ)
        → (entry_at map (s.maps.conv + page)).stamp
        ≤ (next_record was s.next commit position (block_of map 0)).savepoint }
{}
