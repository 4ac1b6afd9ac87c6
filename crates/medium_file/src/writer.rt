//! Writing a backup to a medium. What holds of a writer between two calls that went well
//! (`IsWriting`), for the pages that were appended:
//!
//! 1. There are as many as it counts.
//! 2. The medium is blank in each image that a crash may leave: its gate is closed, and no page is
//!    written over it.
//! 3. A read gives them behind the first page, one after another. A crash may leave any bytes in
//!    their place until they are synced, which sealing does first.
ghost use Rattle.std.specs.Prelude.{◌≡◌, ℕ, ◌+◌, ◌*◌, ◌<◌, List, [], ◌++◌, Err, IfOk, IfErr, OnOk, OnErr, IsTrue};
ghost use Rattle.mdb_model.specs.Causes.{HasCause, Rose};
ghost use Rattle.mdb_model.specs.Images.{Image};
ghost use Rattle.mdb_model.specs.Script.{is_medium};
ghost use Rattle.mdb_model.specs.declared.fault.Device.TheVariants.{Medium};
ghost use Rattle.mdb_host.specs.Disk.{Disk, Goes, Arrives, Calls, Agree, Torn, Has, Synced, IsWithin};
ghost use Rattle.mdb_host.specs.Reads.{ReadsOnly};
ghost use Rattle.mdb_bytes.specs.Fields.{spelled};
ghost use Rattle.mdb_bytes.specs.Groups.{open_gate};
ghost use Rattle.mdb_bytes.specs.MediumPages.{medium_header_fields, medium_header_format};
ghost use Rattle.mdb_bytes.specs.Parts.{page_len, KeepsLimits};
ghost use Rattle.mdb_bytes.specs.SlotRecords.{slot_len};
ghost use Rattle.medium_file.specs.Calls.{BeginAnswer};
ghost use Rattle.medium_file.specs.Media.{gate_in};
ghost use Rattle.medium_file.specs.Writing.{LeavesBlank, IsWriting, Seals, Sealed};

use crate::fault::MediumFault;
use crate::reading::is_gate_open;
use mdb_bytes::{MediumHeader, encode_medium_header};
use mdb_host::{Device, Failed, Host, write_kept};
use mdb_model::limits::{OPEN_GATE, PAGE_BYTES};

/// A medium that a backup is being written to. It holds nothing until it is sealed.
#[derive(Debug, PartialEq, Eq, Drop)]
pub struct MediumWriter {
    pub medium: u8,
    /// The pages of the backup, its header included.
    pub pages: u32,
    /// The pages that were appended so far.
    pub appended: u32,
}

/// Begins a backup of so many pages, its header included, on a medium that is blank. Nothing is
/// written.
pub fn begin<H: Host>(host: &mut H, m: u8, pages: u32) -> Result<MediumWriter, MediumFault>
    requires { IsTrue (is_medium m) }
    // The result.
    ensures answer { H.tells → BeginAnswer (H.disk host.old).seen m pages result }
    ensures writer { IfOk result (λ writer. writer
        ≡ record { medium = m; pages = pages; appended = 0 }) }
    ensures full { (asked : ℕ) → result ≡ Err (MediumFault.Full asked) → asked ≡ pages }
    // The devices.
    ensures writing { IfOk result (λ writer. H.tells → LeavesBlank (H.disk host.old) m
        → IsWriting writer [] (H.disk host.new)) }
    ensures reads { ReadsOnly H.Host host.old host.new }
    // The faults.
    ensures cause { result ≡ Err MediumFault.Failed
        → Rose (H.faults host.old) (H.faults host.new) }
{
    let Some(there) = host.size(Device::Medium(m)) else {
        return Err(MediumFault::Absent);
    };
    let Ok(is_open) = is_gate_open(host, m, there) else {
        return Err(MediumFault::Failed);
    };
    if is_open {
        return Err(MediumFault::Used);
    }
    if there < u64::from(pages) {
        return Err(MediumFault::Full { pages });
    }
    Ok(MediumWriter {
        medium: m,
        pages,
        appended: 0,
    })
}

impl MediumWriter {
    /// Appends the next page of the backup. After an error a read may give any bytes in its place,
    /// and it may be appended again.
    pub fn append_page<H: Host>(
        &mut self,
        host: &mut H,
        page: &[u8; PAGE_BYTES],
    ) -> Result<(), Failed>
        requires medium { IsTrue (is_medium self.old.medium) }
        requires room { 1 + self.old.appended < self.old.pages }
        requires within { H.tells → IsWithin (H.disk host.old).seen (Medium self.old.medium) 0
            (page_len * (2 + self.old.appended)) }
        // The result.
        ensures ok { OnOk result (self.new
            ≡ record self.old { appended = self.old.appended + 1 }) }
        ensures err { OnErr result (self.new ≡ self.old) }
        // The devices.
        ensures writing { OnOk result (H.tells → (content : List ℕ)
            → IsWriting self.old content (H.disk host.old)
            → IsWriting self.new (content ++ page.now) (H.disk host.new)) }
        ensures kept { H.tells → (content : List ℕ)
            → IsWriting self.old content (H.disk host.old)
            → IsWriting self.old content (H.disk host.new) }
        ensures calls { H.tells → Calls (H.disk host.old) (H.disk host.new)
            (Torn (Medium self.old.medium) (page_len * (1 + self.old.appended)) page_len) }
        ensures written { OnOk result (H.tells → Has (H.disk host.new).seen
            (Medium self.old.medium) (page_len * (1 + self.old.appended)) page.now) }
        // The faults.
        ensures cause { HasCause (H.faults host.old) (H.faults host.new) result }
        ensures say_faults { H.say_faults host.new ≡ H.say_faults host.old }
    {
        let at = PAGE_BYTES as u64 * (1 + u64::from(self.appended));
        host.write(Device::Medium(self.medium), at, page)?;
        self.appended += 1;
        Ok(())
    }

    /// Makes the medium hold the backup: the medium is synced, the header is written, the gate is
    /// opened, the last two each with a sync after it. After an error the medium is blank or holds
    /// the backup; the writer that comes back is as it was, and no longer tells which, so it is not
    /// to be sealed again.
    pub fn seal<H: Host>(
        self,
        host: &mut H,
        header: &MediumHeader,
    ) -> Result<(), (MediumWriter, Failed)>
        requires medium { IsTrue (is_medium self.medium) }
        requires keeps { KeepsLimits medium_header_format header.now }
        requires within { H.tells → IsWithin (H.disk host.old).seen (Medium self.medium) 0
            (page_len * (1 + self.appended)) }
        // The result.
        ensures refused { IfErr result (λ refused. refused.0 ≡ self) }
        // The devices.
        ensures any_moment { H.tells → (content : List ℕ)
            → IsWriting self content (H.disk host.old)
            → Goes (H.disk host.old) (H.disk host.new) (Seals self.medium header.now content) }
        ensures there { OnOk result (H.tells → (content : List ℕ)
            → IsWriting self content (H.disk host.old)
            → Arrives (H.disk host.old) (H.disk host.new) (Sealed self.medium header.now content)) }
        ensures torn { H.tells → Goes (H.disk host.old) (H.disk host.new)
            (Torn (Medium self.medium) 0 page_len) }
        ensures seen { H.tells → Torn (Medium self.medium) 0 page_len (H.disk host.old).seen
            (H.disk host.new).seen }
        // The faults.
        ensures cause { HasCause (H.faults host.old) (H.faults host.new) result }
        ensures say_faults { H.say_faults host.new ≡ H.say_faults host.old }
    {
        match self.keep_sealed(host, header) {
            Ok(()) => Ok(()),
            Err(fault) => Err((self, fault)),
        }
    }

    // Makes the medium keep its pages, then the header, then an open gate.
    fn keep_sealed<H: Host>(&self, host: &mut H, header: &MediumHeader) -> Result<(), Failed>
        requires keeps { KeepsLimits medium_header_format header.now }
        requires within { H.tells → IsWithin (H.disk host.old).seen (Medium self.now.medium) 0
            (page_len * (1 + self.now.appended)) }
        ensures any_moment { H.tells → (content : List ℕ)
            → IsWriting self.now content (H.disk host.old)
            → Goes (H.disk host.old) (H.disk host.new) (Seals self.now.medium header.now content) }
        ensures there { OnOk result (H.tells → (content : List ℕ)
            → IsWriting self.now content (H.disk host.old)
            → Arrives (H.disk host.old) (H.disk host.new)
            (Sealed self.now.medium header.now content)) }
        ensures torn { H.tells → Goes (H.disk host.old) (H.disk host.new)
            (Torn (Medium self.now.medium) 0 page_len) }
        ensures seen { H.tells → Torn (Medium self.now.medium) 0 page_len (H.disk host.old).seen
            (H.disk host.new).seen }
        ensures cause { HasCause (H.faults host.old) (H.faults host.new) result }
        ensures say_faults { H.say_faults host.new ≡ H.say_faults host.old }
    {
        keep_pages(host, self.medium)?;
        write_header(host, self.medium, header)?;
        write_gate(host, self.medium)
    }
}

// Makes the medium keep what was appended: a crash leaves what a read gives.
fn keep_pages<H: Host>(host: &mut H, m: u8) -> Result<(), Failed>
    requires { H.tells → IsWithin (H.disk host.old).seen (Medium m) 0 page_len }
    ensures goes { H.tells → Goes (H.disk host.old) (H.disk host.new) Agree }
    ensures seen { H.tells → Agree (H.disk host.old).seen (H.disk host.new).seen }
    ensures kept { OnOk result (H.tells → Synced (H.disk host.new) (Medium m)) }
    ensures cause { HasCause (H.faults host.old) (H.faults host.new) result }
    ensures say_faults { H.say_faults host.new ≡ H.say_faults host.old }
{
    host.sync(Device::Medium(m))
}

// Writes a header before the gate, and makes the medium keep it.
fn write_header<H: Host>(host: &mut H, m: u8, header: &MediumHeader) -> Result<(), Failed>
    requires keeps { KeepsLimits medium_header_format header.now }
    requires within { H.tells → IsWithin (H.disk host.old).seen (Medium m) 0 page_len }
    ensures goes { H.tells → Goes (H.disk host.old) (H.disk host.new)
        (Torn (Medium m) 0 slot_len) }
    ensures seen { H.tells → Torn (Medium m) 0 slot_len (H.disk host.old).seen
        (H.disk host.new).seen }
    ensures kept { OnOk result (H.tells → (image : Image)
        → (H.disk host.new).may_leave (H.disk host.new).now image
        → Has image (Medium m) 0 (spelled (medium_header_fields header.now))) }
    ensures cause { HasCause (H.faults host.old) (H.faults host.new) result }
    ensures say_faults { H.say_faults host.new ≡ H.say_faults host.old }
{
    let mut bytes = [0u8; 8191];
    encode_medium_header(header, &mut bytes);
    write_kept(host, Device::Medium(m), 0, &bytes)
}

// Opens the gate, and makes the medium keep it.
fn write_gate<H: Host>(host: &mut H, m: u8) -> Result<(), Failed>
    requires { H.tells → IsWithin (H.disk host.old).seen (Medium m) 0 page_len }
    ensures goes { H.tells → Goes (H.disk host.old) (H.disk host.new)
        (Torn (Medium m) slot_len 1) }
    ensures seen { H.tells → Torn (Medium m) slot_len 1 (H.disk host.old).seen
        (H.disk host.new).seen }
    ensures kept { OnOk result (H.tells → (image : Image)
        → (H.disk host.new).may_leave (H.disk host.new).now image
        → gate_in image m ≡ open_gate) }
    ensures cause { HasCause (H.faults host.old) (H.faults host.new) result }
    ensures say_faults { H.say_faults host.new ≡ H.say_faults host.old }
{
    write_kept(host, Device::Medium(m), 8191, &[OPEN_GATE])
}
