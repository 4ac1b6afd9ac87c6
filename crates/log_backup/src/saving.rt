//! Saving the groups of the log up to a commit.
ghost use Rattle.std.specs.Prelude.{◌≡◌, ℕ, ◌+◌, ◌*◌, ◌<◌, ◌≤◌, List, ◌∷◌, length, true, ◌&&◌, ◌==◌, Ok, Err, OnOk, IsTrue};
ghost use Rattle.mdb_model.specs.Causes.{Rose};
ghost use Rattle.mdb_model.specs.Script.{is_medium};
ghost use Rattle.mdb_model.specs.Sessions.{group_bytes};
ghost use Rattle.mdb_model.specs.Space.{ceil_div};
ghost use Rattle.mdb_model.specs.declared.change.Commit.{Commit};
ghost use Rattle.mdb_model.specs.declared.fault.Damage.{Damage};
ghost use Rattle.mdb_model.specs.declared.fault.Device.TheVariants.{Medium};
ghost use Rattle.mdb_host.specs.Disk.{Disk, Goes, Arrives, IsWithin};
ghost use Rattle.mdb_host.specs.Reads.{ReadsOnly};
ghost use Rattle.mdb_bytes.specs.LogReading.{IsLog, log_bytes};
ghost use Rattle.mdb_bytes.specs.MediumPages.{medium_header_format};
ghost use Rattle.mdb_bytes.specs.Parts.{page_len, KeepsLimits};
ghost use Rattle.mdb_bytes.specs.Rings.{HasRing, ring_byte};
ghost use Rattle.mdb_bytes.specs.declared.medium_pages.MediumHeader.{MediumHeader};
ghost use Rattle.medium_file.specs.Writing.{LeavesBlank, IsWriting};
ghost use Rattle.redo_ring.specs.Reading.{IsReader, IsNextOf};
ghost use Rattle.redo_ring.specs.Ring.{damage_at};
ghost use Rattle.log_backup.specs.Packing.{packed_len, filled, IsPacking, SameMedium, WritesPages};
ghost use Rattle.log_backup.specs.Saving.{log_backup, IsToSave, IsLeft, BackupTorn, Saves, Saved};

use crate::packing::Packing;
use mdb_bytes::{GroupBuf, MediumHeader};
use mdb_host::{Device, Host};
use mdb_model::fault::{Damage, PageFault, Rule};
use mdb_model::limits::PAGE_BYTES;
use medium_file::MediumWriter;
use redo_ring::RingReader;

// The log does not have the groups that it was said to have.
fn log_breaks(reader: &RingReader) -> PageFault
    requires { IsReader reader.now }
    ensures { result ≡ PageFault.Damaged (damage_at reader.now.size reader.now.position) }
{
    PageFault::Damaged(Damage {
        device: Device::Log,
        page: (2 + reader.position % reader.size / 8192) as u32,
        rule: Rule::Group,
    })
}

// Reads the next group, which is to be there and to have room on the medium.
fn read_next<H: Host>(
    host: &mut H,
    packing: &Packing,
    reader: &mut RingReader,
    group: &mut GroupBuf,
) -> Result<(), PageFault>
    requires order { IsReader reader.old }
    requires packing { IsPacking packing.now }
    requires ring { H.tells → HasRing reader.old.size (H.disk host.old).seen }
    ensures order { IsReader reader.new }
    ensures size { reader.new.size ≡ reader.old.size }
    ensures moves { OnOk result (reader.new ≡ record reader.old {
      position = reader.old.position + length group.new;
      number = reader.old.number + 1;
    }) }
    ensures room { OnOk result (page_len + packed_len packing.now + length group.new
        ≤ page_len * packing.now.writer.pages) }
    ensures next { OnOk result (H.tells → (commits : List Commit)
        → IsLog (ring_byte reader.old.size (H.disk host.old).seen) reader.old.name
        reader.old.position reader.old.number commits
        → reader.old.position + log_bytes commits < reader.old.start + reader.old.size
        → IsNextOf reader.old.size reader.old.name
        (ring_byte reader.old.size (H.disk host.old).seen) reader.old.position reader.old.number
        group.new commits (Ok true)) }
    ensures intact { H.tells → (commit : Commit) (commits : List Commit)
        → IsLog (ring_byte reader.old.size (H.disk host.old).seen) reader.old.name
        reader.old.position reader.old.number (commit ∷ commits)
        → reader.old.position + log_bytes (commit ∷ commits) < reader.old.start + reader.old.size
        → page_len + packed_len packing.now + group_bytes commit.changes
        ≤ page_len * packing.now.writer.pages
        → (damage : Damage) → result ≡ Err (PageFault.Damaged damage) → ⊥ }
    ensures reads { ReadsOnly H.Host host.old host.new }
    ensures cause { result ≡ Err PageFault.Failed → Rose (H.faults host.old) (H.faults host.new) }
{
    match reader.next(host, group) {
        Ok(true) => {
            if packing.has_room(group.len()) {
                Ok(())
            } else {
                Err(log_breaks(reader))
            }
        }
        Ok(false) => Err(log_breaks(reader)),
        Err(fault) => Err(fault),
    }
}

// Reads the next group, and packs it.
fn pack_next<H: Host>(
    host: &mut H,
    packing: &mut Packing,
    reader: &mut RingReader,
    group: &mut GroupBuf,
    page: &mut [u8; PAGE_BYTES],
) -> Result<(), PageFault>
    requires order { IsReader reader.old }
    requires packing { IsPacking packing.old }
    requires ring { H.tells → HasRing reader.old.size (H.disk host.old).seen }
    requires within { H.tells → IsWithin (H.disk host.old).seen
        (Medium packing.old.writer.medium) 0 (page_len * packing.old.writer.pages) }
    ensures order { IsReader reader.new }
    ensures size { reader.new.size ≡ reader.old.size }
    ensures number { OnOk result (reader.new.number ≡ reader.old.number + 1) }
    ensures packing { OnOk result (IsPacking packing.new) }
    ensures same { SameMedium packing.old.writer packing.new.writer }
    ensures left { OnOk result (H.tells → (header : MediumHeader) (all : List ℕ)
        → reader.old.number < header.last
        → IsLeft reader.old packing.old page.old (H.disk host.old) header all
        → IsLeft reader.new packing.new page.new (H.disk host.new) header all) }
    ensures intact { H.tells → (header : MediumHeader) (all : List ℕ)
        → reader.old.number < header.last
        → IsLeft reader.old packing.old page.old (H.disk host.old) header all
        → (damage : Damage) → result ≡ Err (PageFault.Damaged damage) → ⊥ }
    ensures writes { WritesPages H.Host packing.old.writer.medium packing.old.writer.pages
        host.old host.new }
    ensures cause { result ≡ Err PageFault.Failed → Rose (H.faults host.old) (H.faults host.new) }
{
    read_next(host, packing, reader, group)?;
    match packing.put(host, page, group.bytes()) {
        Ok(()) => Ok(()),
        Err(_) => Err(PageFault::Failed),
    }
}

// Reads the groups up to a commit, and packs them.
fn pack_groups<H: Host>(
    host: &mut H,
    packing: &mut Packing,
    reader: &mut RingReader,
    last: u64,
    group: &mut GroupBuf,
    page: &mut [u8; PAGE_BYTES],
) -> Result<(), PageFault>
    requires order { IsReader reader.old }
    requires packing { IsPacking packing.old }
    requires ring { H.tells → HasRing reader.old.size (H.disk host.old).seen }
    requires within { H.tells → IsWithin (H.disk host.old).seen
        (Medium packing.old.writer.medium) 0 (page_len * packing.old.writer.pages) }
    ensures order { IsReader reader.new }
    ensures size { reader.new.size ≡ reader.old.size }
    ensures number { OnOk result (last ≤ reader.new.number) }
    ensures packing { OnOk result (IsPacking packing.new) }
    ensures same { SameMedium packing.old.writer packing.new.writer }
    ensures left { OnOk result (H.tells → (header : MediumHeader) (all : List ℕ)
        → header.last ≡ last
        → IsLeft reader.old packing.old page.old (H.disk host.old) header all
        → IsLeft reader.new packing.new page.new (H.disk host.new) header all) }
    ensures intact { H.tells → (header : MediumHeader) (all : List ℕ) → header.last ≡ last
        → IsLeft reader.old packing.old page.old (H.disk host.old) header all
        → (damage : Damage) → result ≡ Err (PageFault.Damaged damage) → ⊥ }
    ensures writes { WritesPages H.Host packing.old.writer.medium packing.old.writer.pages
        host.old host.new }
    ensures cause { result ≡ Err PageFault.Failed → Rose (H.faults host.old) (H.faults host.new) }
{
    while reader.number < last {
        pack_next(host, packing, reader, group, page)?;
    }
    Ok(())
}

// Whether so many bytes were packed as the header says, up to where it says.
fn is_whole(packing: &Packing, reader: &RingReader, header: &MediumHeader) -> bool
    requires { packing.now.used ≤ page_len }
    ensures { result ≡ (packed_len packing.now == header.now.group_bytes
        && reader.now.position == header.now.end_position) }
{
    packing.len() == header.group_bytes && reader.position == header.end_position
}

// Reads the groups up to a header's last commit, packs them, and fills their last page.
fn pack_backup<H: Host>(
    host: &mut H,
    packing: &mut Packing,
    reader: &mut RingReader,
    last: u64,
    group: &mut GroupBuf,
    page: &mut [u8; PAGE_BYTES],
    header: &MediumHeader,
) -> Result<(), PageFault>
    requires order { IsReader reader.old }
    requires packing { IsPacking packing.old }
    requires last { header.now.last ≡ last }
    requires ring { H.tells → HasRing reader.old.size (H.disk host.old).seen }
    requires within { H.tells → IsWithin (H.disk host.old).seen
        (Medium packing.old.writer.medium) 0 (page_len * packing.old.writer.pages) }
    ensures order { IsReader reader.new }
    ensures ends { OnOk result (reader.new.position ≡ header.now.end_position) }
    ensures packing { OnOk result (IsPacking packing.new) }
    ensures same { SameMedium packing.old.writer packing.new.writer }
    ensures writing { OnOk result (H.tells → (all : List ℕ)
        → IsLeft reader.old packing.old page.old (H.disk host.old) header.now all
        → (length all ≡ header.now.group_bytes)
        × IsWriting packing.new.writer (filled all) (H.disk host.new)) }
    ensures intact { H.tells → (all : List ℕ)
        → IsLeft reader.old packing.old page.old (H.disk host.old) header.now all
        → (damage : Damage) → result ≡ Err (PageFault.Damaged damage) → ⊥ }
    ensures writes { WritesPages H.Host packing.old.writer.medium packing.old.writer.pages
        host.old host.new }
    ensures cause { result ≡ Err PageFault.Failed → Rose (H.faults host.old) (H.faults host.new) }
{
    pack_groups(host, packing, reader, last, group, page)?;
    if !is_whole(packing, reader, header) {
        return Err(log_breaks(reader));
    }
    match packing.fill(host, page) {
        Ok(()) => Ok(()),
        Err(_) => Err(PageFault::Failed),
    }
}

/// Saves the groups from where the reader stands up to commit `last`: packs them without a gap into
/// pages, the last one filled with zeros, and seals the medium with the header. Where the log does
/// not have the groups that the header says, that is called damaged, at the gate where the reader
/// stands then. After an error the medium is blank, or holds the whole backup where the last sync
/// failed; `group` and `page` have anything.
pub fn save<H: Host>(
    host: &mut H,
    writer: MediumWriter,
    reader: &mut RingReader,
    last: u64,
    group: &mut GroupBuf,
    page: &mut [u8; PAGE_BYTES],
    header: &MediumHeader,
) -> Result<(), PageFault>
    requires medium { IsTrue (is_medium writer.medium) }
    requires begins { writer.appended ≡ 0 }
    requires asked { writer.pages ≡ header.now.pages }
    requires pages { header.now.pages ≡ 1 + ceil_div header.now.group_bytes page_len }
    requires last { header.now.last ≡ last }
    requires keeps { KeepsLimits medium_header_format header.now }
    requires order { IsReader reader.old }
    requires ring { H.tells → HasRing reader.old.size (H.disk host.old).seen }
    requires within { H.tells → IsWithin (H.disk host.old).seen (Medium writer.medium) 0
        (page_len * writer.pages) }
    // The result.
    ensures intact { H.tells → (commits : List Commit)
        → IsToSave reader.old (H.disk host.old).seen header.now commits
        → LeavesBlank (H.disk host.old) writer.medium
        → (damage : Damage) → result ≡ Err (PageFault.Damaged damage) → ⊥ }
    ensures order { IsReader reader.new }
    ensures ends { OnOk result (reader.new.position ≡ header.now.end_position) }
    // The devices.
    ensures any_moment { H.tells → (commits : List Commit)
        → IsToSave reader.old (H.disk host.old).seen header.now commits
        → LeavesBlank (H.disk host.old) writer.medium
        → Goes (H.disk host.old) (H.disk host.new) (Saves writer.medium writer.pages
        header.now.end_position (log_backup reader.old header.now commits)) }
    ensures there { OnOk result (H.tells → (commits : List Commit)
        → IsToSave reader.old (H.disk host.old).seen header.now commits
        → LeavesBlank (H.disk host.old) writer.medium
        → Arrives (H.disk host.old) (H.disk host.new) (Saved writer.medium writer.pages
        header.now.end_position (log_backup reader.old header.now commits))) }
    ensures torn { H.tells → Goes (H.disk host.old) (H.disk host.new)
        (BackupTorn writer.medium writer.pages) }
    ensures seen { H.tells → BackupTorn writer.medium writer.pages (H.disk host.old).seen
        (H.disk host.new).seen }
    // The faults.
    ensures later { H.faults host.old ≤ H.faults host.new }
    ensures cause { result ≡ Err PageFault.Failed → Rose (H.faults host.old) (H.faults host.new) }
    ensures say_faults { H.say_faults host.new ≡ H.say_faults host.old }
{
    let mut packing = Packing { writer, used: 0 };
    pack_backup(host, &mut packing, reader, last, group, page, header)?;
    match packing.writer.seal(host, header) {
        Ok(()) => Ok(()),
        Err(_) => Err(PageFault::Failed),
    }
}
