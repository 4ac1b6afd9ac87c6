//! What holds of when an image stands for a world. The functions do nothing: their contracts are
//! the laws.
ghost use Rattle.std.specs.Prelude.{◌≡◌, ◌≤◌, ℕ, [], Bool, IsTrue, IsSome, Some, length};
ghost use Rattle.std.specs.FinMap.{get};
ghost use Rattle.mdb_model.specs.declared.fault.Device.{Device};
ghost use Rattle.mdb_model.specs.Images.{Image};
ghost use Rattle.mdb_model.specs.Worlds.{World, Live};
ghost use Rattle.mdb_host.specs.Disk.{SameSizes};
ghost use Rattle.mdb_host.specs.Places.{IsNamed};
ghost use Rattle.mdb_bytes.specs.declared.restart_record.RestartRecord.{RestartRecord};
ghost use Rattle.mdb_bytes.specs.MediumPages.{most_pages};
ghost use Rattle.volume_disk.specs.Blocks.{Writes};
ghost use Rattle.standing.specs.Standing.{Site, IsNew, at_rest, creation_at};
ghost use Rattle.standing.specs.Looks.{look, record_in, IsUnused};
ghost use Rattle.standing.specs.MediaComing.{with_medium, without_medium, MediumComes, MediumGoes};
ghost use Rattle.standing.specs.WholeStanding.{StandsWhole};

/// What an image stands for follows from what it shows. So blocks that no kept map uses may hold
/// anything, and so may devices that are none of a database, as long as they keep their sizes.
pub fn showing_is_enough()
    ensures look { (a b : Image) (w : World) → look a ≡ look b → StandsWhole a w → StandsWhole b w }
    ensures unused { (old new : Image) (r : RestartRecord) (set : ℕ → Bool) (w : World)
        → Writes r.volumes.items (λ block. IsTrue (set block)) old new
        → record_in old ≡ Some r → record_in new ≡ Some r
        → IsUnused (look old) r (λ block. IsTrue (set block)) → StandsWhole old w
        → StandsWhole new w }
    ensures named { (a b : Image) (r : RestartRecord) (w : World) → record_in a ≡ Some r
        → length r.volumes.items ≤ 8 → SameSizes a b
        → ((device : Device) → IsNamed device → b device ≡ a device) → StandsWhole a w
        → look b ≡ look a }
{}

/// An image with the records and blocks of a creation, and a log without a commit, stands for the
/// new database.
pub fn a_new_database_stands()
    ensures { (image : Image) (site : Site) → IsNew site image
        → StandsWhole image (at_rest (creation_at site) []) }
{}

/// A blank medium may come to be and go: an image that has it besides stands for the world with it,
/// and an image that has it no more for the world without it.
pub fn a_blank_medium_comes_and_goes()
    ensures comes { (old new : Image) (w : World) (number pages : ℕ)
        → MediumComes number pages old new → 1 ≤ number → number ≤ 99 → 2 ≤ pages
        → pages ≤ most_pages → StandsWhole old w → w.area ≡ Live
        → StandsWhole new (with_medium w number pages) }
    ensures goes { (old new : Image) (w : World) (number : ℕ) → MediumGoes number old new
        → IsSome (get w.media number) → StandsWhole old w → w.area ≡ Live
        → StandsWhole new (without_medium w number) }
{}
