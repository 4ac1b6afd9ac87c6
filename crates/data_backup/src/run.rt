//! Copying pages to a medium, and sealing it.
ghost use Rattle.std.specs.Prelude.{◌≡◌, ℕ, ◌+◌, ◌-◌, ◌*◌, ◌<◌, ◌≤◌, min, List, [], IfOk, IfErr, OnOk, OnErr, IsTrue, None, Ok, Err};
ghost use Rattle.std.specs.FinMap.{len};
ghost use Rattle.mdb_model.specs.Causes.{HasCause, Rose};
ghost use Rattle.mdb_model.specs.Images.{Image};
ghost use Rattle.mdb_model.specs.Pages.{PageMap, written_after};
ghost use Rattle.mdb_model.specs.Script.{is_medium};
ghost use Rattle.mdb_model.specs.declared.fault.Device.TheVariants.{Medium};
ghost use Rattle.mdb_model.specs.declared.script.BackupKind.TheVariants.{OfPages};
ghost use Rattle.mdb_model.specs.declared.script.PageKind.TheVariants.{Complete};
ghost use Rattle.mdb_host.specs.Disk.{Disk, Goes, Arrives, Torn, IsWithin};
ghost use Rattle.mdb_bytes.specs.MediumPages.{medium_header_format};
ghost use Rattle.mdb_bytes.specs.Parts.{page_len, KeepsLimits};
ghost use Rattle.mdb_bytes.specs.WholeBackups.{header_for, content_bytes};
ghost use Rattle.medium_file.specs.Media.{IsBlankMedium};
ghost use Rattle.medium_file.specs.Writing.{LeavesBlank, IsWriting, Seals, Sealed};
ghost use Rattle.data_backup.specs.Copying.{HasLeft, HasCopied, IsCopying, complete_of};

use crate::frozen::FrozenPages;
use mdb_bytes::MediumHeader;
use mdb_host::{Failed, Host};
use mdb_model::fault::PageFault;
use mdb_model::limits::PAGE_BYTES;
use medium_file::MediumWriter;

/// A backup of pages that is being written to a medium.
#[derive(Debug, PartialEq, Eq, Drop)]
pub struct BackupRun {
    pub writer: MediumWriter,
    /// Pages that were last written up to this savepoint are not copied; 0 for all pages.
    pub base: u64,
    /// The last page that was copied.
    pub last: Option<u32>,
    /// How many pages are still to be copied.
    pub left: u32,
}

impl BackupRun {
    /// A run that has copied nothing. `left` is how many frozen pages have a stamp above `base`.
    pub fn start(writer: MediumWriter, base: u64, left: u32) -> BackupRun
        requires none_yet { writer.appended ≡ 0 }
        requires asked { 1 + left ≤ writer.pages }
        ensures run { result
            ≡ record { writer = writer; base = base; last = None; left = left } }
        ensures left { (pages : PageMap) → len (written_after base pages) ≡ left
            → HasLeft result pages }
        ensures copied { (pages : PageMap) → len (written_after base pages) ≡ left
            → HasCopied result pages [] }
    {
        BackupRun {
            writer,
            base,
            last: None,
            left,
        }
    }

    // Copies the next page.
    fn copy_next<H: Host, F: FrozenPages>(
        &mut self,
        host: &mut H,
        pages: &mut F,
        page: &mut [u8; PAGE_BYTES],
    ) -> Result<(), PageFault>
        requires medium { IsTrue (is_medium self.old.writer.medium) }
        requires some { 0 < self.old.left }
        requires left { (image : Image) → HasLeft self.old (F.frozen pages.old image) }
        requires room { 1 + self.old.writer.appended < self.old.writer.pages }
        requires within { H.tells → IsWithin (H.disk host.old).seen
            (Medium self.old.writer.medium) 0 (page_len * (2 + self.old.writer.appended)) }
        // The result.
        ensures ok { OnOk result (self.new ≡ record {
          writer = record self.old.writer { appended = self.old.writer.appended + 1 };
          base = self.old.base;
          last = self.new.last;
          left = self.old.left - 1;
        }) }
        ensures err { OnErr result (self.new ≡ self.old) }
        ensures left { (image : Image) → HasLeft self.new (F.frozen pages.old image) }
        ensures follows { F.follows pages.old pages.new }
        // The devices.
        ensures copying { H.tells → F.is_known pages.old (H.disk host.old).seen
            → IsCopying self.old (F.frozen pages.old (H.disk host.old).seen) (H.disk host.old)
            → IsCopying self.new (F.frozen pages.old (H.disk host.old).seen) (H.disk host.new) }
        ensures goes { H.tells → Goes (H.disk host.old) (H.disk host.new)
            (Torn (Medium self.old.writer.medium) (page_len * (1 + self.old.writer.appended))
            page_len) }
        ensures seen { H.tells → Torn (Medium self.old.writer.medium)
            (page_len * (1 + self.old.writer.appended)) page_len (H.disk host.old).seen
            (H.disk host.new).seen }
        // The faults.
        ensures cause { result ≡ Err PageFault.Failed
            → Rose (H.faults host.old) (H.faults host.new) }
        ensures later { H.faults host.old ≤ H.faults host.new }
        ensures whole { H.tells → F.is_known pages.old (H.disk host.old).seen
            → IfErr result (λ fault. fault ≡ PageFault.Failed) }
        ensures say_faults { H.say_faults host.new ≡ H.say_faults host.old }
    {
        let Some(number) = pages.next_page(host, self.last, self.base, page)? else {
            return Ok(());
        };
        let Ok(()) = self.writer.append_page(host, page) else {
            return Err(PageFault::Failed);
        };
        self.last = Some(number);
        self.left -= 1;
        Ok(())
    }
}

/// Copies the next pages by ascending number, `most` of them or all where fewer are left, and
/// answers how many are left then. The frozen map is the same in every call of a run. After a fault
/// the run counts the pages that were copied before it, and may go on.
pub fn copy_turn<H: Host, F: FrozenPages>(
    run: &mut BackupRun,
    host: &mut H,
    pages: &mut F,
    most: u32,
) -> Result<u32, PageFault>
    requires medium { IsTrue (is_medium run.old.writer.medium) }
    requires left { (image : Image) → HasLeft run.old (F.frozen pages.old image) }
    requires room { 1 + run.old.writer.appended + run.old.left ≤ run.old.writer.pages }
    requires within { H.tells → IsWithin (H.disk host.old).seen
        (Medium run.old.writer.medium) 0
        (page_len * (1 + run.old.writer.appended + run.old.left)) }
    // The result.
    ensures answer { IfOk result (λ left. (left ≡ run.new.left)
        × (left ≡ run.old.left - min most run.old.left)) }
    ensures run { run.new ≡ record {
      writer = record run.old.writer
          { appended = run.old.writer.appended + (run.old.left - run.new.left) };
      base = run.old.base;
      last = run.new.last;
      left = run.new.left;
    } }
    ensures range { (run.new.left ≤ run.old.left)
        × (run.old.left - min most run.old.left ≤ run.new.left) }
    ensures left { (image : Image) → HasLeft run.new (F.frozen pages.old image) }
    ensures follows { F.follows pages.old pages.new }
    // The devices.
    ensures copying { H.tells → F.is_known pages.old (H.disk host.old).seen
        → IsCopying run.old (F.frozen pages.old (H.disk host.old).seen) (H.disk host.old)
        → IsCopying run.new (F.frozen pages.old (H.disk host.old).seen) (H.disk host.new) }
    ensures goes { H.tells → Goes (H.disk host.old) (H.disk host.new)
        (Torn (Medium run.old.writer.medium) (page_len * (1 + run.old.writer.appended))
        (page_len * min most run.old.left)) }
    ensures seen { H.tells → Torn (Medium run.old.writer.medium)
        (page_len * (1 + run.old.writer.appended)) (page_len * min most run.old.left)
        (H.disk host.old).seen (H.disk host.new).seen }
    ensures blank { H.tells → LeavesBlank (H.disk host.old) run.old.writer.medium
        → Goes (H.disk host.old) (H.disk host.new)
        (λ old new. IsBlankMedium new run.old.writer.medium) }
    // The faults.
    ensures cause { result ≡ Err PageFault.Failed
        → Rose (H.faults host.old) (H.faults host.new) }
    ensures later { H.faults host.old ≤ H.faults host.new }
    ensures whole { H.tells → F.is_known pages.old (H.disk host.old).seen
        → IfErr result (λ fault. fault ≡ PageFault.Failed) }
    ensures say_faults { H.say_faults host.new ≡ H.say_faults host.old }
{
    let mut page = [0u8; PAGE_BYTES];
    let rest = run.left - most.min(run.left);
    while run.left > rest {
        run.copy_next(host, pages, &mut page)?;
    }
    Ok(run.left)
}

/// Seals the medium of a backup of all pages. The run that comes back with an error is as it was;
/// the medium is blank or holds the backup then, and is not to be sealed again.
pub fn finish<H: Host>(
    run: BackupRun,
    host: &mut H,
    header: &MediumHeader,
) -> Result<(), (BackupRun, Failed)>
    requires medium { IsTrue (is_medium run.writer.medium) }
    requires copied { run.left ≡ 0 }
    requires keeps { KeepsLimits medium_header_format header.now }
    requires kind { (run.base ≡ 0) × (header.now.kind ≡ OfPages Complete) }
    requires asked { (header.now.pages ≡ run.writer.pages)
        × (1 + run.writer.appended ≡ run.writer.pages) }
    requires within { H.tells → IsWithin (H.disk host.old).seen (Medium run.writer.medium) 0
        (page_len * run.writer.pages) }
    // The result.
    ensures refused { IfErr result (λ refused. refused.0 ≡ run) }
    ensures backup { (pages : PageMap) (content : List ℕ) → HasLeft run pages
        → HasCopied run pages content
        → header.now ≡ header_for 0 (complete_of header.now (written_after 0 pages)) }
    // The devices.
    ensures any_moment { H.tells → (pages : PageMap) → HasLeft run pages
        → IsCopying run pages (H.disk host.old)
        → Goes (H.disk host.old) (H.disk host.new) (Seals run.writer.medium header.now
        (content_bytes (complete_of header.now (written_after 0 pages)))) }
    ensures whole { OnOk result (H.tells → (pages : PageMap) → HasLeft run pages
        → IsCopying run pages (H.disk host.old)
        → Arrives (H.disk host.old) (H.disk host.new) (Sealed run.writer.medium header.now
        (content_bytes (complete_of header.now (written_after 0 pages))))) }
    ensures seen { H.tells → Torn (Medium run.writer.medium) 0 page_len (H.disk host.old).seen
        (H.disk host.new).seen }
    ensures torn { H.tells → Goes (H.disk host.old) (H.disk host.new)
        (Torn (Medium run.writer.medium) 0 page_len) }
    // The faults.
    ensures cause { HasCause (H.faults host.old) (H.faults host.new) result }
    ensures say_faults { H.say_faults host.new ≡ H.say_faults host.old }
{
    let BackupRun {
        writer,
        base,
        last,
        left,
    } = run;
    match writer.seal(host, header) {
        Ok(()) => Ok(()),
        Err((writer, fault)) => Err((
            BackupRun {
                writer,
                base,
                last,
                left,
            },
            fault,
        )),
    }
}
