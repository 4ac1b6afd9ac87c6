//! Backing the log up: the log info names the backup as pending before its medium may count, and as
//! saved once it does.
ghost use Rattle.std.specs.Prelude.{◌≡◌, ℕ, ◌+◌, ◌-◌, ◌*◌, ◌^◌, ◌<◌, ◌≤◌, List, true, Err, IfOk, OnOk, OnErr, IsTrue};
ghost use Rattle.mdb_model.specs.Causes.{Rose};
ghost use Rattle.mdb_model.specs.Script.{is_medium};
ghost use Rattle.mdb_model.specs.Space.{ceil_div};
ghost use Rattle.mdb_model.specs.declared.change.Commit.{Commit};
ghost use Rattle.mdb_model.specs.declared.fault.Damage.{Damage};
ghost use Rattle.mdb_model.specs.declared.fault.Device.TheVariants.{Log, Medium};
ghost use Rattle.mdb_host.specs.Disk.{Disk, Goes, Arrives, IsWithin};
ghost use Rattle.mdb_bytes.specs.MediumPages.{medium_header_format};
ghost use Rattle.mdb_bytes.specs.Parts.{page_len, KeepsLimits};
ghost use Rattle.mdb_bytes.specs.Rings.{HasRing};
ghost use Rattle.mdb_bytes.specs.SlotRecords.{log_info_format};
ghost use Rattle.gate_slots.specs.declared.body.SlotBody.TheVariants.{Log as LogBody};
ghost use Rattle.gate_slots.specs.Slots.{other_of};
ghost use Rattle.gate_slots.specs.Steps.{SlotsTorn, Switches, HasSwitched};
ghost use Rattle.medium_file.specs.Writing.{LeavesBlank};
ghost use Rattle.redo_ring.specs.Reading.{IsReader};
ghost use Rattle.log_backup.specs.Backing.{log_slots, pending_info, saved_info, LogAndMediumTorn, BacksUp, BackedUp};
ghost use Rattle.log_backup.specs.Saving.{log_backup, IsToSave};

use crate::saving::save;
use gate_slots::{SlotBody, Slots};
use mdb_bytes::{GroupBuf, LogInfo, MediumHeader};
use mdb_host::Host;
use mdb_model::fault::PageFault;
use mdb_model::limits::PAGE_BYTES;
use medium_file::MediumWriter;
use redo_ring::RingReader;

// The log info that names a backup as pending.
fn pending_of(info: &LogInfo, medium: u8, header: &MediumHeader) -> LogInfo
    requires low { info.now.slot < 2 ^ 62 - 2 }
    requires medium { IsTrue (is_medium medium) }
    requires keeps { KeepsLimits log_info_format info.now }
    requires header { KeepsLimits medium_header_format header.now }
    ensures is { result ≡ pending_info info.now medium header.now }
    ensures keeps { KeepsLimits log_info_format result }
{
    LogInfo {
        format: info.format,
        slot: info.slot + 1,
        name: info.name,
        saved_commit: info.saved_commit,
        saved_position: info.saved_position,
        pending_medium: u32::from(medium),
        pages: info.pages,
        pending_commit: header.last,
        pending_position: header.end_position,
    }
}

// The log info that names it as saved.
fn saved_of(info: &LogInfo, header: &MediumHeader) -> LogInfo
    requires low { info.now.slot < 2 ^ 62 - 2 }
    requires keeps { KeepsLimits log_info_format info.now }
    requires header { KeepsLimits medium_header_format header.now }
    ensures is { result ≡ saved_info info.now header.now }
    ensures keeps { KeepsLimits log_info_format result }
{
    LogInfo {
        format: info.format,
        slot: info.slot + 2,
        name: info.name,
        saved_commit: header.last,
        saved_position: header.end_position,
        pending_medium: 0,
        pages: info.pages,
        pending_commit: 0,
        pending_position: 0,
    }
}

// Puts the next log info in force.
fn put_info<H: Host>(host: &mut H, slots: &mut Slots, info: LogInfo) -> Result<(), PageFault>
    requires place { slots.old.place ≡ log_slots }
    requires keeps { KeepsLimits log_info_format info }
    requires number { info.slot ≡ slots.old.number + 1 }
    requires within { H.tells → IsWithin (H.disk host.old).seen Log 0 16384 }
    ensures any_moment { H.tells → Goes (H.disk host.old) (H.disk host.new)
        (Switches slots.old (LogBody info)) }
    ensures there { OnOk result (H.tells → Arrives (H.disk host.old) (H.disk host.new)
        (HasSwitched slots.old slots.new (LogBody info))) }
    ensures ok { OnOk result (slots.new ≡ record slots.old {
      number = slots.old.number + 1;
      current = other_of slots.old.current;
      other_open = true;
    }) }
    ensures intact { (damage : Damage) → result ≡ Err (PageFault.Damaged damage) → ⊥ }
    ensures seen { H.tells → SlotsTorn slots.old.place (H.disk host.old).seen
        (H.disk host.new).seen }
    ensures later { H.faults host.old ≤ H.faults host.new }
    ensures cause { OnErr result (Rose (H.faults host.old) (H.faults host.new)) }
    ensures say_faults { H.say_faults host.new ≡ H.say_faults host.old }
{
    match slots.switch(host, &SlotBody::Log(info)) {
        Ok(()) => Ok(()),
        Err(_) => Err(PageFault::Failed),
    }
}

/// Saves the log up to the header's last commit, and answers the log info that is in force then.
/// First the log info names the backup as pending; then its groups are saved and the medium is
/// sealed; then the log info says that the log is saved up to its end, and nothing is pending. So
/// the saved position is moved only once the medium holds the backup. After an error the log info
/// that was in force still is, or one of these two; the slots are to be read again.
pub fn backup_log<H: Host>(
    host: &mut H,
    slots: &mut Slots,
    info: &LogInfo,
    writer: MediumWriter,
    reader: &mut RingReader,
    group: &mut GroupBuf,
    page: &mut [u8; PAGE_BYTES],
    header: &MediumHeader,
) -> Result<LogInfo, PageFault>
    requires place { slots.old.place ≡ log_slots }
    requires number { info.now.slot ≡ slots.old.number }
    requires low { info.now.slot < 2 ^ 62 - 2 }
    requires info { KeepsLimits log_info_format info.now }
    requires first { header.now.first ≡ info.now.saved_commit + 1 }
    requires slots { H.tells → IsWithin (H.disk host.old).seen Log 0 16384 }
    requires medium { IsTrue (is_medium writer.medium) }
    requires begins { writer.appended ≡ 0 }
    requires asked { writer.pages ≡ header.now.pages }
    requires pages { header.now.pages ≡ 1 + ceil_div header.now.group_bytes page_len }
    requires keeps { KeepsLimits medium_header_format header.now }
    requires order { IsReader reader.old }
    requires ring { H.tells → HasRing reader.old.size (H.disk host.old).seen }
    requires within { H.tells → IsWithin (H.disk host.old).seen (Medium writer.medium) 0
        (page_len * writer.pages) }
    // The result.
    ensures answer { IfOk result (λ after. after ≡ saved_info info.now header.now) }
    ensures slots { OnOk result (slots.new ≡ record slots.old {
      number = slots.old.number + 2;
      other_open = true;
    }) }
    ensures intact { H.tells → (commits : List Commit)
        → IsToSave reader.old (H.disk host.old).seen header.now commits
        → LeavesBlank (H.disk host.old) writer.medium
        → (damage : Damage) → result ≡ Err (PageFault.Damaged damage) → ⊥ }
    // The devices.
    ensures any_moment { H.tells → (commits : List Commit)
        → IsToSave reader.old (H.disk host.old).seen header.now commits
        → LeavesBlank (H.disk host.old) writer.medium
        → Goes (H.disk host.old) (H.disk host.new) (BacksUp slots.old info.now writer.medium
        writer.pages header.now (log_backup reader.old header.now commits)) }
    ensures there { OnOk result (H.tells → (commits : List Commit)
        → IsToSave reader.old (H.disk host.old).seen header.now commits
        → LeavesBlank (H.disk host.old) writer.medium
        → Arrives (H.disk host.old) (H.disk host.new) (BackedUp slots.old slots.new info.now
        writer.medium writer.pages header.now (log_backup reader.old header.now commits))) }
    ensures seen { H.tells → LogAndMediumTorn writer.medium writer.pages (H.disk host.old).seen
        (H.disk host.new).seen }
    // The faults.
    ensures later { H.faults host.old ≤ H.faults host.new }
    ensures cause { result ≡ Err PageFault.Failed → Rose (H.faults host.old) (H.faults host.new) }
    ensures say_faults { H.say_faults host.new ≡ H.say_faults host.old }
{
    let pending = pending_of(info, writer.medium, header);
    put_info(host, slots, pending)?;
    save(host, writer, reader, header.last, group, page, header)?;
    let saved = saved_of(info, header);
    put_info(host, slots, saved)?;
    Ok(saved)
}
