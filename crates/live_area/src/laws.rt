//! What an area that serves a world gives to a kernel on it. The functions do nothing: their
//! contracts are the laws.
ghost use Rattle.std.specs.Prelude.{◌≡◌, ◌⊎◌, ℕ, ◌-◌, ◌*◌, ◌≤◌, [], Some, None, true, IsSome};
ghost use Rattle.std.specs.FinMap.{get, empty};
ghost use Rattle.mdb_model.specs.declared.fault.Device.TheVariants.{Medium};
ghost use Rattle.mdb_model.specs.declared.name.State.TheVariants.{Offline};
ghost use Rattle.mdb_model.specs.History.{last, tables_of};
ghost use Rattle.mdb_model.specs.Images.{Image};
ghost use Rattle.mdb_model.specs.Sessions.{unsaved};
ghost use Rattle.mdb_model.specs.Space.{has_room};
ghost use Rattle.mdb_model.specs.Steps.{backups_of};
ghost use Rattle.mdb_model.specs.Worlds.{World, Live};
ghost use Rattle.mdb_host.specs.Disk.{Disk, Keeps, Agree, AgreeBut, Goes, Arrives, Creates, Removes};
ghost use Rattle.mdb_bytes.specs.declared.restart_record.RestartRecord.{RestartRecord};
ghost use Rattle.mdb_bytes.specs.Forms.{reading};
ghost use Rattle.mdb_bytes.specs.MediumPages.{most_pages};
ghost use Rattle.gate_slots.specs.declared.slots.Slots.{Slots};
ghost use Rattle.page_store.specs.SavingStays.{numbers_left};
ghost use Rattle.page_store.specs.Steps.{KeepsStore};
ghost use Rattle.page_store.specs.Store.{Store, block_count};
ghost use Rattle.redo_ring.specs.declared.ring.Ring.{Ring};
ghost use Rattle.store_rows.specs.StoredRows.{stored_rows, HasRows};
ghost use Rattle.standing.specs.Looks.{open_medium};
ghost use Rattle.standing.specs.MediaComing.{with_medium, without_medium, MediumComes, MediumGoes};
ghost use Rattle.standing.specs.WholeStanding.{StandsWhole, pages_in};
ghost use Rattle.kept_worlds.specs.InService.{AtEachMoment};
ghost use Rattle.live_area.specs.Media.{ChangesMedium};
ghost use Rattle.live_area.specs.Serving.{IsSoundArea, ServesWorld};

use mdb_host::Host;

/// Calls on pages leave an area sound, and at each moment of them each image stands for the world
/// that it serves. Where they leave its rows it goes on to serve that world. They take no number of
/// a savepoint.
pub fn calls_keep_serving<H: Host>()
    ensures sound { (slots : Slots) (r : RestartRecord) (s t : Store) (ring : Ring) (d e : H)
        → IsSoundArea H.tells slots r s ring (H.disk d)
        → KeepsStore H.tells s t (H.disk d) (H.disk e)
        → IsSoundArea H.tells slots r t ring (H.disk e) }
    ensures serves { (slots : Slots) (r : RestartRecord) (s t : Store) (ring : Ring) (d e : H)
        (w : World) → ServesWorld H.tells slots r s ring (H.disk d) w
        → KeepsStore H.tells s t (H.disk d) (H.disk e) → HasRows H.tells t (H.disk e).seen
        → stored_rows t (H.disk e).seen ≡ stored_rows s (H.disk d).seen
        → ServesWorld H.tells slots r t ring (H.disk e) w }
    ensures at_each_moment { (slots : Slots) (r : RestartRecord) (s t : Store) (ring : Ring)
        (d e : H) (w : World) → ServesWorld H.tells slots r s ring (H.disk d) w
        → KeepsStore H.tells s t (H.disk d) (H.disk e)
        → AtEachMoment (H.disk d) (H.disk e) (λ image. StandsWhole image w) }
    ensures area { (r : RestartRecord) (s t : Store) (d e : H)
        → KeepsStore H.tells s t (H.disk d) (H.disk e)
        → (block_count t ≡ block_count s) × (numbers_left r t ≡ numbers_left r s) }
{}

/// Where time goes on and the devices stay as they are, as while an answer is said, an area stays
/// sound, and it goes on to serve its world.
pub fn saying_keeps_serving<H: Host>()
    ensures sound { (slots : Slots) (r : RestartRecord) (s : Store) (ring : Ring) (d e : H)
        → IsSoundArea H.tells slots r s ring (H.disk d) → Keeps (H.disk d) (H.disk e)
        → Agree (H.disk d).seen (H.disk e).seen
        → ((image : Image) → (H.disk e).may_leave (H.disk e).now image
        → (H.disk d).may_leave (H.disk d).now image)
        → IsSoundArea H.tells slots r s ring (H.disk e) }
    ensures serves { (slots : Slots) (r : RestartRecord) (s : Store) (ring : Ring) (d e : H)
        (w : World) → ServesWorld H.tells slots r s ring (H.disk d) w
        → Keeps (H.disk d) (H.disk e) → Agree (H.disk d).seen (H.disk e).seen
        → ((image : Image) → (H.disk e).may_leave (H.disk e).now image
        → (H.disk d).may_leave (H.disk d).now image)
        → ServesWorld H.tells slots r s ring (H.disk e) w }
{}

/// What an area says of the world that it serves, which is at rest: the numbers of its log and its
/// size are those of the area, its rows have room as they are, and none of them has an empty key.
pub fn what_is_served<H: Host>()
    ensures ring { (slots : Slots) (r : RestartRecord) (s : Store) (ring : Ring) (d : H)
        (w : World) → ServesWorld H.tells slots r s ring (H.disk d) w → w.ring ≡ ring.size }
    ensures blocks { (slots : Slots) (r : RestartRecord) (s : Store) (ring : Ring) (d : H)
        (w : World) → ServesWorld H.tells slots r s ring (H.disk d) w
        → w.blocks ≡ block_count s }
    ensures small { (slots : Slots) (r : RestartRecord) (s : Store) (ring : Ring) (d : H)
        (w : World) → ServesWorld H.tells slots r s ring (H.disk d) w → w.blocks ≤ 65536 }
    ensures name { (slots : Slots) (r : RestartRecord) (s : Store) (ring : Ring) (d : H)
        (w : World) → ServesWorld H.tells slots r s ring (H.disk d) w → w.name ≡ ring.name }
    ensures last_commit { (slots : Slots) (r : RestartRecord) (s : Store) (ring : Ring) (d : H)
        (w : World) → ServesWorld H.tells slots r s ring (H.disk d) w
        → last w.history ≡ ring.last_commit }
    ensures saved_commit { (slots : Slots) (r : RestartRecord) (s : Store) (ring : Ring) (d : H)
        (w : World) → ServesWorld H.tells slots r s ring (H.disk d) w
        → w.saved ≡ ring.saved_commit }
    ensures unsaved_bytes { (slots : Slots) (r : RestartRecord) (s : Store) (ring : Ring) (d : H)
        (w : World) → ServesWorld H.tells slots r s ring (H.disk d) w
        → unsaved w ≡ ring.end_position - ring.saved_position }
    ensures room { (slots : Slots) (r : RestartRecord) (s : Store) (ring : Ring) (d : H)
        (w : World) → ServesWorld H.tells slots r s ring (H.disk d) w
        → has_room (tables_of w.history) (tables_of w.history) 0 0 w.blocks ≡ true }
    ensures keys { (slots : Slots) (r : RestartRecord) (s : Store) (ring : Ring) (d : H)
        (w : World) → ServesWorld H.tells slots r s ring (H.disk d) w
        → (table : ℕ) → get (tables_of w.history) (table, []) ≡ None }
    ensures saved_low { (slots : Slots) (r : RestartRecord) (s : Store) (ring : Ring) (d : H)
        (w : World) → ServesWorld H.tells slots r s ring (H.disk d) w
        → w.history.first ≤ w.saved }
    ensures saved_high { (slots : Slots) (r : RestartRecord) (s : Store) (ring : Ring) (d : H)
        (w : World) → ServesWorld H.tells slots r s ring (H.disk d) w
        → w.saved ≤ last w.history }
{}

/// Right after a savepoint the pages of each image's record are the rows of the world, with no
/// before images.
pub fn a_fresh_record_has_the_rows<H: Host>()
    ensures { (slots : Slots) (r : RestartRecord) (s : Store) (ring : Ring) (d : H) (w : World)
        → ServesWorld H.tells slots r s ring (H.disk d) w
        → ring.redo_position ≡ ring.end_position
        → (image : Image) → (H.disk d).may_leave (H.disk d).now image
        → (reading.standing (pages_in image) ≡ Some (tables_of w.history))
        × (reading.before_images (pages_in image) ≡ Some empty) }
{}

/// What holds of each world that an image stands for, as far as the program is built.
pub fn a_world_that_stands()
    ensures state { (image : Image) (w : World) → StandsWhole image w → w.state ≡ Offline }
    ensures area { (image : Image) (w : World) → StandsWhole image w → w.area ≡ Live }
    ensures media { (image : Image) (w : World) → StandsWhole image w → backups_of w ≡ [] }
    ensures snapshots { (image : Image) (w : World) → StandsWhole image w → w.snapshots ≡ empty }
    ensures base { (image : Image) (w : World) → StandsWhole image w → w.base ≡ None }
    ensures saved_low { (image : Image) (w : World) → StandsWhole image w
        → w.history.first ≤ w.saved }
    ensures saved_high { (image : Image) (w : World) → StandsWhole image w
        → w.saved ≤ last w.history }
{}

/// A call on a medium leaves an area sound. Where a blank medium comes to be or goes, at each moment
/// each image stands for the world before or after it, and then the area serves the one after it.
pub fn media_come_and_go_beside<H: Host>()
    ensures sound { (slots : Slots) (r : RestartRecord) (s : Store) (ring : Ring) (d e : H)
        (number : ℕ) → (H.tells → ChangesMedium number (H.disk d) (H.disk e))
        → IsSoundArea H.tells slots r s ring (H.disk d)
        → IsSoundArea H.tells slots r s ring (H.disk e) }
    ensures each_more { (slots : Slots) (r : RestartRecord) (s : Store) (ring : Ring) (d e : H)
        (w : World) (number pages : ℕ) → ServesWorld H.tells slots r s ring (H.disk d) w
        → 1 ≤ number → number ≤ 99 → 2 ≤ pages → pages ≤ most_pages
        → Goes (H.disk d) (H.disk e) (Creates (Medium number) (8192 * pages))
        → ((before : Image) → (H.disk d).may_leave (H.disk d).now before
        → before (Medium number) ≡ None) → AtEachMoment (H.disk d) (H.disk e)
        (λ image. StandsWhole image w ⊎ StandsWhole image (with_medium w number pages)) }
    ensures serves_more { (slots : Slots) (r : RestartRecord) (s : Store) (ring : Ring) (d e : H)
        (w : World) (number pages : ℕ) → ServesWorld H.tells slots r s ring (H.disk d) w
        → 1 ≤ number → number ≤ 99 → 2 ≤ pages → pages ≤ most_pages
        → MediumComes number pages (H.disk d).seen (H.disk e).seen
        → Arrives (H.disk d) (H.disk e) (MediumComes number pages)
        → ServesWorld H.tells slots r s ring (H.disk e) (with_medium w number pages) }
    ensures each_less { (slots : Slots) (r : RestartRecord) (s : Store) (ring : Ring) (d e : H)
        (w : World) (number : ℕ) → ServesWorld H.tells slots r s ring (H.disk d) w
        → IsSome (get w.media number) → Goes (H.disk d) (H.disk e) (Removes (Medium number))
        → ((before : Image) → (H.disk d).may_leave (H.disk d).now before
        → open_medium before number ≡ None) → AtEachMoment (H.disk d) (H.disk e)
        (λ image. StandsWhole image w ⊎ StandsWhole image (without_medium w number)) }
    ensures serves_less { (slots : Slots) (r : RestartRecord) (s : Store) (ring : Ring) (d e : H)
        (w : World) (number : ℕ) → ServesWorld H.tells slots r s ring (H.disk d) w
        → IsSome (get w.media number)
        → AgreeBut (Medium number) (H.disk d).seen (H.disk e).seen
        → Arrives (H.disk d) (H.disk e) (MediumGoes number)
        → ServesWorld H.tells slots r s ring (H.disk e) (without_medium w number) }
{}
