//! What a medium holds: its gate, its header and its pages.
ghost use Rattle.std.specs.Prelude.{◌≡◌, ◌+◌, ◌*◌, Some, Err, IfOk, IfSome, OnOk, IsTrue, ◌==◌};
ghost use Rattle.mdb_model.specs.Causes.{HasCause, Rose};
ghost use Rattle.mdb_model.specs.Images.{size_of};
ghost use Rattle.mdb_model.specs.Script.{is_medium};
ghost use Rattle.mdb_model.specs.declared.fault.Damage.{Damage};
ghost use Rattle.mdb_model.specs.declared.fault.Device.TheVariants.{Medium};
ghost use Rattle.mdb_host.specs.Disk.{Disk, IsWithin};
ghost use Rattle.mdb_host.specs.Reads.{ReadsOnly};
ghost use Rattle.mdb_bytes.specs.Groups.{open_gate};
ghost use Rattle.mdb_bytes.specs.MediumPages.{medium_header_format};
ghost use Rattle.mdb_bytes.specs.Parts.{page_len, KeepsLimits};
ghost use Rattle.medium_file.specs.Calls.{HeaderAnswer};
ghost use Rattle.medium_file.specs.Media.{gate_in, BreaksHeader, header_damage, Holds, page_on};

use crate::fault::HeaderFault;
use mdb_bytes::{MediumHeader, decode_medium_header};
use mdb_host::{Device, Failed, Host};
use mdb_model::fault::{Damage, PageFault, Rule};
use mdb_model::limits::{CLOSED_GATE, OPEN_GATE, PAGE_BYTES};

/// Whether the gate of a medium with so many pages is open. One without a page has no gate.
pub(crate) fn is_gate_open<H: Host>(host: &mut H, m: u8, pages: u64) -> Result<bool, Failed>
    requires { H.tells → size_of ((H.disk host.old).seen (Medium m)) ≡ Some (pages * page_len) }
    ensures gate { IfOk result (λ is_open. H.tells
        → is_open ≡ (gate_in (H.disk host.old).seen m == open_gate)) }
    ensures reads { ReadsOnly H.Host host.old host.new }
    ensures cause { HasCause (H.faults host.old) (H.faults host.new) result }
{
    if pages == 0 {
        return Ok(false);
    }
    let mut gate = [CLOSED_GATE];
    host.read(Device::Medium(m), 8191, &mut gate)?;
    Ok(gate[0] == OPEN_GATE)
}

/// The header of a medium with so many pages; none where it is blank.
pub(crate) fn held<H: Host>(
    host: &mut H,
    m: u8,
    pages: u64,
) -> Result<Option<MediumHeader>, PageFault>
    requires { H.tells → size_of ((H.disk host.old).seen (Medium m)) ≡ Some (pages * page_len) }
    // The result.
    ensures holds { IfOk result (λ found. H.tells → Holds (H.disk host.old).seen m found) }
    ensures keeps { IfOk result (λ found. IfSome found
        (λ header. KeepsLimits medium_header_format header)) }
    ensures breaks { (damage : Damage) → result ≡ Err (PageFault.Damaged damage)
        → (damage ≡ header_damage m) × (H.tells → BreaksHeader (H.disk host.old).seen m) }
    // The devices.
    ensures reads { ReadsOnly H.Host host.old host.new }
    // The faults.
    ensures cause { result ≡ Err PageFault.Failed → Rose (H.faults host.old) (H.faults host.new) }
{
    if pages == 0 {
        return Ok(None);
    }
    let mut first = [0u8; PAGE_BYTES];
    let Ok(()) = host.read(Device::Medium(m), 0, &mut first) else {
        return Err(PageFault::Failed);
    };
    let (body, gate) = first.split_at(8191);
    if gate[0] != OPEN_GATE {
        return Ok(None);
    }
    match decode_medium_header(body) {
        Some(header) => Ok(Some(header)),
        None => Err(PageFault::Damaged(Damage {
            device: Device::Medium(m),
            page: 0,
            rule: Rule::Header,
        })),
    }
}

/// The header of the backup that a medium holds.
pub fn header<H: Host>(host: &mut H, m: u8) -> Result<MediumHeader, HeaderFault>
    requires { IsTrue (is_medium m) }
    // The result.
    ensures answer { H.tells → HeaderAnswer (H.disk host.old).seen m result }
    ensures keeps { IfOk result (λ header. KeepsLimits medium_header_format header) }
    ensures damage { (damage : Damage) → result ≡ Err (HeaderFault.Damaged damage)
        → damage ≡ header_damage m }
    // The devices.
    ensures reads { ReadsOnly H.Host host.old host.new }
    // The faults.
    ensures cause { result ≡ Err HeaderFault.Failed
        → Rose (H.faults host.old) (H.faults host.new) }
{
    let Some(pages) = host.size(Device::Medium(m)) else {
        return Err(HeaderFault::Absent);
    };
    match held(host, m, pages) {
        Ok(Some(header)) => Ok(header),
        Ok(None) => Err(HeaderFault::Empty),
        Err(PageFault::Failed) => Err(HeaderFault::Failed),
        Err(PageFault::Damaged(damage)) => Err(HeaderFault::Damaged(damage)),
    }
}

/// Reads one page of a medium, the header's being page 0. After an error `into` may hold any bytes.
pub fn page<H: Host>(host: &mut H, m: u8, i: u32, into: &mut [u8; PAGE_BYTES]) -> Result<(), Failed>
    requires medium { IsTrue (is_medium m) }
    requires within { H.tells
        → IsWithin (H.disk host.old).seen (Medium m) (page_len * i) page_len }
    ensures bytes { OnOk result (H.tells → into.new ≡ page_on (H.disk host.old).seen m i) }
    ensures reads { ReadsOnly H.Host host.old host.new }
    ensures cause { HasCause (H.faults host.old) (H.faults host.new) result }
{
    host.read(Device::Medium(m), PAGE_BYTES as u64 * u64::from(i), into)
}
