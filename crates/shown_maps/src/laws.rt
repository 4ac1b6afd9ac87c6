//! What an image shows of a map on its blocks. The functions do nothing: their contracts are the
//! laws.
ghost use Rattle.std.specs.Prelude.{◌≡◌, ◌⊎◌, ℕ, ◌+◌, ◌<◌, List, Some, sum};
ghost use Rattle.mdb_model.specs.declared.change.Commit.{Commit};
ghost use Rattle.mdb_model.specs.declared.fault.Damage.{Damage};
ghost use Rattle.mdb_model.specs.Images.{Image};
ghost use Rattle.mdb_model.specs.Worlds.{World};
ghost use Rattle.mdb_bytes.specs.declared.converter_pages.ConverterEntry.{ConverterEntry};
ghost use Rattle.mdb_bytes.specs.declared.restart_record.RestartRecord.{RestartRecord};
ghost use Rattle.mdb_bytes.specs.Firsts.{leaf_count};
ghost use Rattle.mdb_bytes.specs.KeptMaps.{KeptMap, kept_map};
ghost use Rattle.gate_slots.specs.declared.slots.Slots.{Slots};
ghost use Rattle.converter.specs.Loads.{Breaks};
ghost use Rattle.converter.specs.Maps.{IsSoundMaps, block_of};
ghost use Rattle.savepoint.specs.Stands.{HoldsMap, HasSavepoint};
ghost use Rattle.standing.specs.Looks.{look, map_of_record};
ghost use Rattle.standing.specs.WholeStanding.{StandsWhole, BlocksAreApart, ShareNoBlock};
ghost use Rattle.page_store.specs.Store.{Store, block_count};
ghost use Rattle.page_store.specs.WholeSavepoint.{CanSave, IsInArea, HasNextMap, WritesThenSwitches, next_record, saved_page};
ghost use Rattle.shown_maps.specs.Saving.{TakesSavepoint};
ghost use Rattle.shown_maps.specs.ShownMaps.{shown_map};

use mdb_host::Host;

/// Where an image has a map on its blocks, it is what the image shows under the map's root; and
/// where the record in force names that root, it is what the image shows as kept.
pub fn a_map_is_shown()
    ensures under_a_root { (r : RestartRecord) (m : List ConverterEntry) (conv : ℕ)
        (pages : ℕ → List ℕ) (image : Image) → conv ≡ 1 + leaf_count (sum r.volumes.items)
        → IsInArea conv (sum r.volumes.items) m → HoldsMap r.volumes.items m conv pages image
        → (next : RestartRecord) → next.volumes ≡ r.volumes
        → next.root ≡ block_of m 0
        → map_of_record image next ≡ Some (shown_map conv m pages) }
    ensures in_force { (r : RestartRecord) (m : List ConverterEntry) (conv : ℕ)
        (pages : ℕ → List ℕ) (image : Image) → conv ≡ 1 + leaf_count (sum r.volumes.items)
        → IsInArea conv (sum r.volumes.items) m → HasSavepoint r.volumes.items r m conv pages image
        → ((look image).restart ≡ Some r) × ((look image).kept ≡ Some (shown_map conv m pages)) }
{}

/// Such a map has its blocks apart, and shares none with itself.
pub fn a_map_is_apart()
    ensures apart { (m : List ConverterEntry) (conv n : ℕ) (pages : ℕ → List ℕ)
        → IsInArea conv n m → BlocksAreApart (shown_map conv m pages) n }
    ensures own { (m : List ConverterEntry) (conv n : ℕ) (pages : ℕ → List ℕ)
        → IsInArea conv n m
        → ShareNoBlock (shown_map conv m pages) (shown_map conv m pages) }
{}

/// The maps of a store are in its area, where each page of the converter has a block.
pub fn a_store_is_in_area()
    ensures saved { (s : Store) → IsSoundMaps s.maps
        → ((q : ℕ) → q < s.maps.conv → 0 < block_of s.maps.saved q)
        → IsInArea s.maps.conv (block_count s) s.maps.saved }
    ensures present { (s : Store) → IsSoundMaps s.maps
        → ((q : ℕ) → q < s.maps.conv → 0 < block_of s.maps.present q)
        → IsInArea s.maps.conv (block_count s) s.maps.present }
{}

/// A whole savepoint leaves the world: at each moment of it each image stands for the world that it
/// stood for, where the next record and map give the same rows.
pub fn a_whole_savepoint_stands()
    ensures { (s : Store) (seen : Image) (slots : Slots) (was : RestartRecord)
        (commit position : ℕ) (map : List ConverterEntry) (done rest : List Commit) (w : World)
        (before after : Image) → StandsWhole before w
        → TakesSavepoint s seen slots was
        (next_record was s.next commit position (block_of map 0)) map done rest w before
        → WritesThenSwitches s slots (next_record was s.next commit position (block_of map 0))
        before after
        → HasSavepoint s.sizes was s.maps.saved s.maps.conv (saved_page s seen) after
        ⊎ HasNextMap s seen was commit position map after
        → StandsWhole after w }
{}

/// Where an image shows a map whose blocks are apart, no rule on reading the map is broken. So a
/// store that is opened on a record whose map stands is never called damaged.
pub fn no_rule_is_broken()
    ensures { (sizes : List ℕ) (row : ℕ → List ℕ) (conv n root : ℕ) (kept : KeptMap)
        → conv ≡ 1 + leaf_count n → kept_map row n root ≡ Some kept → BlocksAreApart kept n
        → (damage : Damage) → Breaks sizes conv n root row damage → ⊥ }
{}

/// What a store can save from shows in each image that a crash may leave: the record in force, and
/// the map of the last savepoint with what stands on its pages. An opened store has it
/// (`opened_can_save` of `page_store`).
pub fn a_store_is_shown<H: Host>()
    ensures { (slots : Slots) (restart : RestartRecord) (s : Store) (h : H)
        → CanSave H.tells slots restart s (H.disk h) → H.tells
        → s.sizes ≡ restart.volumes.items
        → s.maps.conv ≡ 1 + leaf_count (sum restart.volumes.items)
        → IsInArea s.maps.conv (sum restart.volumes.items) s.maps.saved
        → (image : Image) → (H.disk h).may_leave (H.disk h).now image
        → ((look image).restart ≡ Some restart) × ((look image).kept
        ≡ Some (shown_map s.maps.conv s.maps.saved (saved_page s (H.disk h).seen))) }
{}
