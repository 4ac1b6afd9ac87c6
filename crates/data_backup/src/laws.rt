//! Which pages a backup of all pages has. The function does nothing: its contract is the law.
ghost use Rattle.std.specs.Prelude.{◌≡◌};
ghost use Rattle.mdb_model.specs.Pages.{PageMap, written_after};
ghost use Rattle.data_backup.specs.Frozen.{AllStamped};

/// Where each page was written by some savepoint, all pages were written after savepoint 0.
pub fn all_pages_are_copied()
    ensures { (pages : PageMap) → AllStamped pages → written_after 0 pages ≡ pages }
{}
