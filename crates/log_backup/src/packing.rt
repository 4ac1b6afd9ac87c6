//! Packing bytes without a gap into the pages of a medium.
ghost use Rattle.std.specs.Prelude.{◌≡◌, ℕ, ◌+◌, ◌-◌, ◌*◌, ◌<◌, ◌≤◌, List, ◌++◌, length, take, replicate, nat_le, IfOk, OnOk, OnErr, IsTrue};
ghost use Rattle.mdb_model.specs.Causes.{HasCause, Rose};
ghost use Rattle.mdb_model.specs.Space.{ceil_div};
ghost use Rattle.mdb_model.specs.Script.{is_medium};
ghost use Rattle.mdb_model.specs.declared.fault.Device.TheVariants.{Medium};
ghost use Rattle.mdb_host.specs.Disk.{Disk, IsWithin};
ghost use Rattle.mdb_bytes.specs.Groups.{longest_group};
ghost use Rattle.mdb_bytes.specs.Parts.{page_len};
ghost use Rattle.medium_file.specs.Writing.{IsWriting};
ghost use Rattle.log_backup.specs.Packing.{packed_len, IsPacking, SameMedium, WritesPages, Packs, filled};

use mdb_host::{Failed, Host};
use mdb_model::limits::PAGE_BYTES;
use medium_file::MediumWriter;

/// Bytes that were packed so far: the pages that were appended to a medium, and the front of the
/// page that is being filled.
#[derive(Drop)]
pub(crate) struct Packing {
    pub(crate) writer: MediumWriter,
    /// How many bytes of the page are filled.
    pub(crate) used: usize,
}

// Fills a page with zeros from a place on.
fn clear_from(page: &mut [u8; PAGE_BYTES], place: usize)
    requires { place ≤ page_len }
    ensures { page.new ≡ take place page.old ++ replicate (page_len - place) 0 }
{
    page[place..].fill(0);
}

// Writes bytes from a place of a page on.
fn put_at(page: &mut [u8; PAGE_BYTES], place: usize, bytes: &[u8])
    requires { place + length bytes.now ≤ page_len }
    ensures { take (place + length bytes.now) page.new ≡ take place page.old ++ bytes.now }
{
    page[place..place + bytes.len()].copy_from_slice(bytes);
}

impl Packing {
    // How many bytes were packed.
    pub(crate) fn len(&self) -> u64
        requires { self.now.used ≤ page_len }
        ensures { result ≡ packed_len self.now }
    {
        PAGE_BYTES as u64 * u64::from(self.writer.appended) + self.used as u64
    }

    // Whether so many bytes more have room on the medium.
    pub(crate) fn has_room(&self, count: usize) -> bool
        requires packing { IsPacking self.now }
        requires small { count ≤ longest_group }
        ensures { result ≡ nat_le (page_len + packed_len self.now + count)
            (page_len * self.now.writer.pages) }
    {
        let end = PAGE_BYTES as u64 * u64::from(self.writer.pages);
        PAGE_BYTES as u64 + self.len() + count as u64 <= end
    }

    // Appends the page where it is full.
    fn append_full<H: Host>(&mut self, host: &mut H, page: &[u8; PAGE_BYTES]) -> Result<(), Failed>
        requires medium { IsTrue (is_medium self.old.writer.medium) }
        requires used { self.old.used ≤ page_len }
        requires room { page_len + packed_len self.old ≤ page_len * self.old.writer.pages }
        requires within { H.tells → IsWithin (H.disk host.old).seen
            (Medium self.old.writer.medium) 0 (page_len * self.old.writer.pages) }
        ensures same { SameMedium self.old.writer self.new.writer }
        ensures packing { OnOk result (IsPacking self.new) }
        ensures len { OnOk result (packed_len self.new ≡ packed_len self.old) }
        ensures used { OnOk result (self.old.used ≡ page_len → self.new.used ≡ 0) }
        ensures packs { OnOk result (H.tells → (bytes : List ℕ)
            → Packs self.old page.now bytes (H.disk host.old)
            → Packs self.new page.now bytes (H.disk host.new)) }
        ensures writes { WritesPages H.Host self.old.writer.medium self.old.writer.pages
            host.old host.new }
        ensures cause { OnErr result (Rose (H.faults host.old) (H.faults host.new)) }
    {
        if self.used < PAGE_BYTES {
            return Ok(());
        }
        self.writer.append_page(host, page)?;
        self.used = 0;
        Ok(())
    }

    // Packs as many of the bytes as the page has room for.
    fn put_some<H: Host>(
        &mut self,
        host: &mut H,
        page: &mut [u8; PAGE_BYTES],
        bytes: &[u8],
    ) -> Result<usize, Failed>
        requires packing { IsPacking self.old }
        requires some { 1 ≤ length bytes.now }
        requires room { page_len + packed_len self.old + length bytes.now
            ≤ page_len * self.old.writer.pages }
        requires within { H.tells → IsWithin (H.disk host.old).seen
            (Medium self.old.writer.medium) 0 (page_len * self.old.writer.pages) }
        ensures same { SameMedium self.old.writer self.new.writer }
        ensures packing { OnOk result (IsPacking self.new) }
        ensures count { IfOk result (λ count. (1 ≤ count) × (count ≤ length bytes.now)
            × (packed_len self.new ≡ packed_len self.old + count)) }
        ensures packs { IfOk result (λ count. H.tells → (before : List ℕ)
            → Packs self.old page.old before (H.disk host.old)
            → Packs self.new page.new (before ++ take count bytes.now) (H.disk host.new)) }
        ensures writes { WritesPages H.Host self.old.writer.medium self.old.writer.pages
            host.old host.new }
        ensures cause { OnErr result (Rose (H.faults host.old) (H.faults host.new)) }
    {
        let count = bytes.len().min(PAGE_BYTES - self.used);
        let (first, _) = bytes.split_at(count);
        put_at(page, self.used, first);
        self.used += count;
        self.append_full(host, page)?;
        Ok(count)
    }

    /// Packs bytes after those that were packed, and appends each page that is full.
    pub(crate) fn put<H: Host>(
        &mut self,
        host: &mut H,
        page: &mut [u8; PAGE_BYTES],
        bytes: &[u8],
    ) -> Result<(), Failed>
        requires packing { IsPacking self.old }
        requires room { page_len + packed_len self.old + length bytes.now
            ≤ page_len * self.old.writer.pages }
        requires within { H.tells → IsWithin (H.disk host.old).seen
            (Medium self.old.writer.medium) 0 (page_len * self.old.writer.pages) }
        ensures same { SameMedium self.old.writer self.new.writer }
        ensures packing { OnOk result (IsPacking self.new) }
        ensures len { OnOk result (packed_len self.new
            ≡ packed_len self.old + length bytes.now) }
        ensures packs { OnOk result (H.tells → (before : List ℕ)
            → Packs self.old page.old before (H.disk host.old)
            → Packs self.new page.new (before ++ bytes.now) (H.disk host.new)) }
        ensures writes { WritesPages H.Host self.old.writer.medium self.old.writer.pages
            host.old host.new }
        ensures cause { OnErr result (Rose (H.faults host.old) (H.faults host.new)) }
    {
        let mut done = 0;
        while done < bytes.len() {
            let (_, left) = bytes.split_at(done);
            done += self.put_some(host, page, left)?;
        }
        Ok(())
    }

    /// Fills the last page with zeros and appends it, where it has any bytes.
    pub(crate) fn fill<H: Host>(
        &mut self,
        host: &mut H,
        page: &mut [u8; PAGE_BYTES],
    ) -> Result<(), Failed>
        requires packing { IsPacking self.old }
        requires within { H.tells → IsWithin (H.disk host.old).seen
            (Medium self.old.writer.medium) 0 (page_len * self.old.writer.pages) }
        ensures same { SameMedium self.old.writer self.new.writer }
        ensures packing { OnOk result (IsPacking self.new) }
        ensures none { OnOk result (self.new.used ≡ 0) }
        ensures packs { OnOk result (H.tells → (bytes : List ℕ)
            → Packs self.old page.old bytes (H.disk host.old)
            → IsWriting self.new.writer (filled bytes) (H.disk host.new)) }
        ensures writes { WritesPages H.Host self.old.writer.medium self.old.writer.pages
            host.old host.new }
        ensures cause { OnErr result (Rose (H.faults host.old) (H.faults host.new)) }
    {
        if self.used == 0 {
            return Ok(());
        }
        clear_from(page, self.used);
        self.used = PAGE_BYTES;
        self.append_full(host, page)
    }
}
