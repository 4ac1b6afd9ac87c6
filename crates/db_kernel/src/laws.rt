//! What is so of a kernel and its worlds, for callers that do not look into what it is to fit
//! them. The functions do nothing: their contracts are the laws.
ghost use Rattle.std.specs.Prelude.{◌≡◌, List, All, None, Some};
ghost use Rattle.mdb_model.specs.Runs.{Line};
ghost use Rattle.mdb_model.specs.Worlds.{World};
ghost use Rattle.mdb_model.specs.declared.name.Session.{Session};
ghost use Rattle.mdb_model.specs.declared.name.State.TheVariants.{Offline};
ghost use Rattle.mdb_model.specs.declared.name.Table.{Table};
ghost use Rattle.mdb_model.specs.declared.script.Command.TheVariants.{ScanTable};
ghost use Rattle.mdb_model.specs.declared.script.Refusal.TheVariants.{Syntax, MemoryWanting};
ghost use Rattle.mdb_model.specs.declared.script.Reply.{Reply};
ghost use Rattle.mdb_model.specs.declared.script.Reply.TheVariants.{Refused};
ghost use Rattle.mdb_host.specs.Disk.{Disk};
ghost use Rattle.open_database.specs.Outside.{TiesNothing};
ghost use Rattle.open_database.specs.Serving.{AreOff};
ghost use Rattle.open_database.specs.Stretch.{IsStill};
ghost use Rattle.db_kernel.specs.Kept.{IsSoundKernel, FitsWorlds, scanned_rows};

use crate::kernel::Kernel;
use mdb_host::Host;

/// Saying a text changes the clock and the output of a host, but not its devices, so a kernel goes
/// on fitting its worlds.
pub fn saying_keeps_the_fit<H: Host>(kernel: &Kernel, before: &H, after: &H)
    ensures { (ws : List World) → FitsWorlds kernel.now.database (H.disk before.now) ws
        → IsStill (H.disk before.now) (H.disk after.now)
        → FitsWorlds kernel.now.database (H.disk after.now) ws }
{
    let _kernel = kernel;
    let _before = before;
    let _after = after;
}

/// And its database stays in order.
pub fn saying_keeps_it_sound<H: Host>(kernel: &Kernel, before: &H, after: &H)
    ensures { IsSoundKernel H.tells kernel.now.database (H.disk before.now)
        → IsStill (H.disk before.now) (H.disk after.now)
        → IsSoundKernel H.tells kernel.now.database (H.disk after.now) }
{
    let _kernel = kernel;
    let _before = before;
    let _after = after;
}

/// And the rows that a session sees are the same.
pub fn saying_keeps_the_rows<H: Host>(kernel: &Kernel, before: &H, after: &H)
    ensures { (session : Session) → IsStill (H.disk before.now) (H.disk after.now)
        → scanned_rows kernel.now.database (H.disk after.now) session
        ≡ scanned_rows kernel.now.database (H.disk before.now) session }
{
    let _kernel = kernel;
    let _before = before;
    let _after = after;
}

/// A kernel that is off is in order.
pub fn a_kernel_that_is_off_is_sound<H: Host>(host: &H)
    ensures { IsSoundKernel H.tells None (H.disk host.now) }
{
    let _host = host;
}

/// A kernel that is off fits whatever worlds are off, and one that fits worlds that are off is off.
pub fn off_as_the_worlds_are<H: Host>(kernel: &Kernel, host: &H)
    ensures fits { (ws : List World) → AreOff ws → FitsWorlds None (H.disk host.now) ws }
    ensures off { (ws : List World) → FitsWorlds kernel.now.database (H.disk host.now) ws
        → All (λ w. w.state ≡ Offline) ws → kernel.now.database ≡ None }
{
    let _kernel = kernel;
    let _host = host;
}

/// A scan ties nothing, however it ends, and neither does a line that is not in the grammar or one
/// for which memory ran out.
pub fn these_tie_nothing()
    ensures scans { (session : Session) (table : Table) (reply : Reply)
        → TiesNothing (Some (ScanTable session table)) reply }
    ensures syntax { (line : Line) → TiesNothing line (Refused Syntax) }
    ensures starved { (line : Line) → TiesNothing line (Refused MemoryWanting) }
{}
