//! Lists of media.
ghost use Rattle.std.specs.Prelude.{◌≡◌, ℕ, ◌-◌, ◌*◌, ◌^◌, ◌<◌, ◌≤◌, min, None, Some, Err, IfOk, IfSome, MatchOption};
ghost use Rattle.mdb_model.specs.Causes.{Rose};
ghost use Rattle.mdb_model.specs.Images.{size_of};
ghost use Rattle.mdb_model.specs.declared.fault.Damage.{Damage};
ghost use Rattle.mdb_model.specs.declared.fault.Device.TheVariants.{Medium};
ghost use Rattle.mdb_host.specs.Disk.{Disk};
ghost use Rattle.mdb_host.specs.Reads.{ReadsOnly};
ghost use Rattle.mdb_bytes.specs.Parts.{page_len};
ghost use Rattle.medium_file.specs.Calls.{IsNextMedium, NoMediumAbove, shown, ListAnswer};
ghost use Rattle.medium_file.specs.Media.{header_damage};

use crate::reading::held;
use mdb_bytes::MediumHeader;
use mdb_host::{Device, Host};
use mdb_model::fault::PageFault;
use mdb_model::script::{BackupKind, MediumLine, MediumState};

/// The number of the last medium that may be.
const LAST_MEDIUM: u8 = 99;

// What a list shows of a medium with this header.
fn state_of(found: Option<MediumHeader>) -> MediumState
    ensures { result ≡ shown found }
{
    match found {
        None => MediumState::Blank,
        Some(header) => match header.kind {
            BackupKind::OfPages(kind) => MediumState::Saved(kind, header.name, header.last),
            BackupKind::OfLog => MediumState::SavedLog(header.name, header.first, header.last),
        },
    }
}

// The least medium above a number that is there, and its pages.
fn next_there<H: Host>(host: &H, after: u8) -> Option<(u8, u64)>
    ensures range { IfSome result (λ found. (after < found.0) × (found.0 ≤ 99)) }
    ensures found { H.tells → MatchOption result (NoMediumAbove (H.disk host.now).seen after)
        (λ found. IsNextMedium (H.disk host.now).seen after found.0
        × (size_of ((H.disk host.now).seen (Medium found.0)) ≡ Some (found.1 * page_len))) }
{
    let mut m = after;
    while m < LAST_MEDIUM {
        m += 1;
        if let Some(pages) = host.size(Device::Medium(m)) {
            return Some((m, pages));
        }
    }
    None
}

/// The line of the least medium above a number, `busy` being the one that a backup is being written
/// to, if there is one. A line names at most `u32::MAX` pages.
pub fn list_next<H: Host>(
    host: &mut H,
    after: u8,
    busy: Option<u8>,
) -> Result<Option<MediumLine>, PageFault>
    // The result.
    ensures answer { H.tells → ListAnswer (H.disk host.old).seen after busy result }
    ensures range { IfOk result (λ found. IfSome found
        (λ line. (after < line.medium) × (line.medium ≤ 99))) }
    ensures damage { (damage : Damage) → result ≡ Err (PageFault.Damaged damage)
        → (m : ℕ) × (after < m) × (m ≤ 99) × (damage ≡ header_damage m) }
    // The devices.
    ensures reads { ReadsOnly H.Host host.old host.new }
    // The faults.
    ensures cause { result ≡ Err PageFault.Failed → Rose (H.faults host.old) (H.faults host.new) }
{
    let Some((medium, pages)) = next_there(host, after) else {
        return Ok(None);
    };
    let holds = if busy == Some(medium) {
        MediumState::Busy
    } else {
        state_of(held(host, medium, pages)?)
    };
    Ok(Some(MediumLine {
        medium,
        pages: pages.min(u64::from(u32::MAX)) as u32,
        holds,
    }))
}
