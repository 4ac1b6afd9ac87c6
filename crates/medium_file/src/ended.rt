//! Whether a pending backup has ended, as its medium shows.
ghost use Rattle.std.specs.Prelude.{◌≡◌, Err, IsTrue};
ghost use Rattle.mdb_model.specs.Causes.{Rose};
ghost use Rattle.mdb_model.specs.Script.{is_medium};
ghost use Rattle.mdb_model.specs.declared.fault.Damage.{Damage};
ghost use Rattle.mdb_host.specs.Disk.{Disk};
ghost use Rattle.mdb_host.specs.Reads.{ReadsOnly};
ghost use Rattle.medium_file.specs.Calls.{is_of_log, saves_pages, saves_log, EndedAnswer};
ghost use Rattle.medium_file.specs.Media.{header_damage};

use crate::reading::held;
use mdb_bytes::MediumHeader;
use mdb_host::{Device, Host};
use mdb_model::fault::PageFault;
use mdb_model::name::Name;
use mdb_model::script::BackupKind;

fn is_log_kind(kind: BackupKind) -> bool
    ensures { result ≡ is_of_log kind }
{
    match kind {
        BackupKind::OfPages(_) => false,
        BackupKind::OfLog => true,
    }
}

fn has_pages_at(header: &MediumHeader, name: Name, savepoint: u64) -> bool
    ensures { result ≡ saves_pages name savepoint header.now }
{
    !is_log_kind(header.kind) && header.name == name && header.savepoint == savepoint
}

fn has_log_up_to(header: &MediumHeader, name: Name, commit: u64, position: u64) -> bool
    ensures { result ≡ saves_log name commit position header.now }
{
    is_log_kind(header.kind)
        && header.name == name
        && header.last == commit
        && header.end_position == position
}

/// Whether a backup of pages has ended that was begun on a medium at this savepoint.
pub fn data_ended<H: Host>(
    host: &mut H,
    m: u8,
    name: Name,
    savepoint: u64,
) -> Result<bool, PageFault>
    requires { IsTrue (is_medium m) }
    // The result.
    ensures answer { H.tells
        → EndedAnswer (H.disk host.old).seen m (saves_pages name savepoint) result }
    ensures damage { (damage : Damage) → result ≡ Err (PageFault.Damaged damage)
        → damage ≡ header_damage m }
    // The devices.
    ensures reads { ReadsOnly H.Host host.old host.new }
    // The faults.
    ensures cause { result ≡ Err PageFault.Failed → Rose (H.faults host.old) (H.faults host.new) }
{
    let Some(pages) = host.size(Device::Medium(m)) else {
        return Ok(false);
    };
    match held(host, m, pages) {
        Ok(Some(header)) => Ok(has_pages_at(&header, name, savepoint)),
        Ok(None) => Ok(false),
        Err(fault) => Err(fault),
    }
}

/// Whether a backup of the log has ended that was begun on a medium up to this commit, and ends at
/// this position.
pub fn log_ended<H: Host>(
    host: &mut H,
    m: u8,
    name: Name,
    commit: u64,
    position: u64,
) -> Result<bool, PageFault>
    requires { IsTrue (is_medium m) }
    // The result.
    ensures answer { H.tells
        → EndedAnswer (H.disk host.old).seen m (saves_log name commit position) result }
    ensures damage { (damage : Damage) → result ≡ Err (PageFault.Damaged damage)
        → damage ≡ header_damage m }
    // The devices.
    ensures reads { ReadsOnly H.Host host.old host.new }
    // The faults.
    ensures cause { result ≡ Err PageFault.Failed → Rose (H.faults host.old) (H.faults host.new) }
{
    let Some(pages) = host.size(Device::Medium(m)) else {
        return Ok(false);
    };
    match held(host, m, pages) {
        Ok(Some(header)) => Ok(has_log_up_to(&header, name, commit, position)),
        Ok(None) => Ok(false),
        Err(fault) => Err(fault),
    }
}
