//! What a database may be made with.
ghost use Rattle.std.specs.Prelude.{◌≡◌, ◌↔◌, ◌≤◌, length, IsTrue};
ghost use Rattle.standing.specs.Standing.{AreVolumes, IsSite};

use arrayvec::ArrayVec;
use mdb_model::limits::{MOST_BLOCKS, RECORD_NUMBER_END};
// Whether the data volumes have 64 blocks or more each, and 512 to 65,536 together.
fn are_volumes(volumes: &[u32]) -> bool
    requires { length volumes.now ≤ 8 }
    ensures { IsTrue result ↔ AreVolumes volumes.now }
{
    let mut blocks = 0;
    for i in 0..volumes.len() {
        if volumes[i] < 64 || MOST_BLOCKS - blocks < volumes[i] {
            return false;
        }
        blocks += volumes[i];
    }
    512 <= blocks
}

/// Whether a database may be made with this birth, a log volume of so many pages, and data volumes
/// of so many blocks.
pub fn can_create(birth: u64, log_pages: u32, volumes: &ArrayVec<u32, 8>) -> bool
    ensures { IsTrue result ↔ IsSite (record
        { birth = birth; volumes = volumes.now.items; log_pages = log_pages }) }
{
    1 <= birth
        && birth < RECORD_NUMBER_END
        && 4 <= log_pages
        && log_pages <= MOST_BLOCKS
        && are_volumes(volumes.as_slice())
}
