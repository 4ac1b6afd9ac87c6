//! Where a call may start. The function does nothing: its contract is the law.
ghost use Rattle.std.specs.Prelude.{◌≡◌, [], ◌∷◌};
ghost use Rattle.mdb_model.specs.Headline.{CanStart};
ghost use Rattle.mdb_model.specs.Images.{Image};
ghost use Rattle.mdb_model.specs.Worlds.{World, off};
ghost use Rattle.mdb_host.specs.Disk.{Disk};
ghost use Rattle.db_kernel.specs.Starting.{own_age};
ghost use Rattle.open_database.specs.Outside.{page_reading, StandsFor};

use live_area::a_world_that_stands;
use mdb_host::Host;

/// A call may start wherever each image that a crash may leave stands for one world that is off.
/// This world is sound, and agrees with the history that it has itself. So a call may start on what
/// the creation of a database leaves, and on what a crash of an earlier call does.
pub fn each_image_is_a_start<H: Host>(host: &H)
    ensures { H.tells → (w : World) → off w ≡ w → ((image : Image)
        → (H.disk host.now).may_leave (H.disk host.now).now image → StandsFor image w)
        → CanStart page_reading (H.disk host.now).said (H.disk host.now).may_leave StandsFor
        (H.disk host.now).now ((w, own_age w) ∷ []) }
{
    let _host = host;
    a_world_that_stands();
}
