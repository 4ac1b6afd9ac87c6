//! Blocks of pages: a page whose block is kept moves to a free one before it is written.
ghost use Rattle.std.specs.Prelude.{◌≡◌, ◌≢◌, ◌⊎◌, ℕ, ◌+◌, ◌<◌, ◌≤◌};
ghost use Rattle.std.specs.Prelude.{List, Some, Err, MatchOption, IfOk, IfErr, OnOk, OnErr};
ghost use Rattle.mdb_model.specs.Causes.{Rose};
ghost use Rattle.mdb_host.specs.Reads.{ReadsOnly};
ghost use Rattle.volume_disk.specs.Blocks.{IsArea};
ghost use Rattle.converter.specs.Maps.{Maps, IsSoundMaps};
ghost use Rattle.free_blocks.specs.Free.{IsFree, free_count};
ghost use Rattle.page_store.specs.Store.{Store, block_count, page_block, frame_of, Lives, IsHeld};
ghost use Rattle.page_store.specs.Store.{IsStore, IsKnown, spare_of};
ghost use Rattle.mdb_bytes.specs.Paged.{price};
ghost use Rattle.page_store.specs.LogicalPages.{paid_pages};
ghost use Rattle.page_store.specs.Steps.{ReadiesBoth, KeepsPages, moved_to, newer_at, without_page};
ghost use Rattle.page_store.specs.Steps.{given_block, Pays, GivesUp, MakesPage, ShowsFrame, Readies};

use crate::store::{FrameState, PageStore};
use converter::Entry;
use mdb_host::Host;
use mdb_model::fault::PageFault;
use mdb_model::limits::PAGE_BYTES;

impl PageStore {
    // Puts a page on the least free block, with these bytes in its frame. Its block before, if it
    // had one, is kept.
    pub(crate) fn put_on_free(&mut self, page: u32, bytes: &[u8; PAGE_BYTES]) -> u32
        requires below { page < block_count self.old }
        requires spare { 0 < free_count self.old.free }
        requires left { (page_block self.old page ≡ 0)
            ⊎ IsHeld self.old (page_block self.old page) }
        ensures free { IsFree self.old.free result }
        ensures put { self.new ≡ moved_to self.old page result bytes.now }
    {
        // Opens the invariant of the store.
        let _blocks = self.blocks();
        let Some(block) = self.free.take() else {
            unreachable!()
        };
        self.frames[block as usize] = *bytes;
        self.states[block as usize] = FrameState::Changed;
        self.converter.set(
            page,
            Entry {
                block,
                stamp: self.next,
            },
        );
        block
    }

    // Makes the frame of a page newer than its block, which nothing keeps.
    fn make_newer(&mut self, page: u32, block: u32)
        requires some { 0 < block }
        requires block { page_block self.old page ≡ block }
        requires owned { IsHeld self.old block → ⊥ }
        requires framed { (bytes : List ℕ) × (frame_of self.old block ≡ Some bytes) }
        ensures { self.new ≡ newer_at self.old block }
    {
        // Opens the invariant of the store.
        let _blocks = self.blocks();
        let _page = page;
        self.states[block as usize] = FrameState::Changed;
    }

    // Makes the frame of a page newer than its block, on a free block with the same bytes where its
    // block is kept.
    pub(crate) fn pay(&mut self, page: u32) -> u32
        requires lives { Lives self.old page }
        requires framed { (bytes : List ℕ)
            × (frame_of self.old (page_block self.old page) ≡ Some bytes) }
        requires spare { IsHeld self.old (page_block self.old page) → 0 < free_count self.old.free }
        ensures { Pays self.old self.new page result }
    {
        let block = self.block_of(page);
        if self.is_held(block) {
            let bytes = *self.frame(block);
            return self.put_on_free(page, &bytes);
        }
        self.make_newer(page, block);
        block
    }

    // Gives up a page, whose block is kept.
    fn leave_block(&mut self, page: u32)
        requires lives { Lives self.old page }
        requires held { IsHeld self.old (page_block self.old page) }
        ensures { self.new ≡ without_page self.old page }
    {
        // Opens the invariant of the store.
        let _block = self.block_of(page);
        self.converter.clear(page);
    }

    // Gives up a page, and its block, which nothing keeps.
    fn give_block(&mut self, page: u32, block: u32)
        requires lives { Lives self.old page }
        requires block { page_block self.old page ≡ block }
        requires owned { IsHeld self.old block → ⊥ }
        ensures { self.new ≡ given_block (without_page self.old page) block }
    {
        // Opens the invariant of the store.
        let _block = self.block_of(page);
        self.converter.clear(page);
        self.states[block as usize] = FrameState::Absent;
        self.free.give(block);
    }

    // Gives up a page, and its block where nothing keeps it.
    pub(crate) fn give_up(&mut self, page: u32)
        requires { Lives self.old page }
        ensures { GivesUp self.old self.new page }
    {
        let block = self.block_of(page);
        if self.is_held(block) {
            self.leave_block(page);
        } else {
            self.give_block(page, block);
        }
    }

    // The least dead page from one on, below another.
    fn dead_between(&self, from: u32, end: u32) -> Option<u32>
        requires { end ≤ block_count self.now }
        ensures { MatchOption
            result
            ((p : ℕ) → from ≤ p → p < end → Lives self.now p)
            (λ p. (p < end) × (page_block self.now p ≡ 0)) }
    {
        for page in from..end {
            if !self.lives(page) {
                return Some(page);
            }
        }
        None
    }

    // A dead page. There is one, as no page has one of the first two blocks, and each live page one
    // of its own.
    fn dead_page(&self) -> u32
        ensures below { result < block_count self.now }
        ensures dead { page_block self.now result ≡ 0 }
    {
        let blocks = self.blocks();
        if let Some(page) = self.dead_between(self.search_from, blocks) {
            return page;
        }
        let Some(page) = self.dead_between(0, blocks) else {
            unreachable!()
        };
        page
    }

    // Makes a page that was dead, with zero bytes.
    pub(crate) fn make_page(&mut self) -> u32
        requires { 0 < free_count self.old.free }
        ensures { MakesPage self.old self.new result }
    {
        let page = self.dead_page();
        let _block = self.put_on_free(page, &[0; PAGE_BYTES]);
        self.search_from = page;
        page
    }

    // Makes a page. Its contract adds the invariants of the store before and after.
    pub(crate) fn make_new(&mut self) -> u32
        requires { 0 < free_count self.old.free }
        ensures made { MakesPage self.old self.new result }
        ensures sound { IsSoundMaps self.old.maps × IsSoundMaps self.new.maps }
        ensures store { IsStore self.old }
    {
        // Opens the invariant of the store.
        let _before = self.blocks();
        let page = self.make_page();
        // Opens the invariant of the store.
        let _after = self.blocks();
        page
    }

    // Gives up a page. Its contract adds the invariants of the store before and after.
    pub(crate) fn make_free(&mut self, page: u32)
        requires { Lives self.old page }
        ensures given { GivesUp self.old self.new page }
        ensures sound { IsSoundMaps self.old.maps × IsSoundMaps self.new.maps }
        ensures store { IsStore self.old }
        ensures below { page < block_count self.old }
    {
        // Opens the invariant of the store.
        let _block = self.block_of(page);
        self.give_up(page);
        // Opens the invariant of the store.
        let _after = self.blocks();
    }

    // Fills the frame of a page's block.
    pub(crate) fn filled<H: Host>(&mut self, host: &mut H, page: u32) -> Result<u32, PageFault>
        requires { Lives self.old page }
        // The result.
        ensures shows { IfOk result
            (λ b. ShowsFrame H.tells self.old self.new page b (H.disk host.old).seen) }
        ensures store { OnOk result (IsStore self.new) }
        ensures err { OnErr result (self.new ≡ self.old) }
        ensures sound { IsSoundMaps self.old.maps }
        ensures page { page < block_count self.old }
        // The devices.
        ensures reads { ReadsOnly H.Host host.old host.new }
        // The faults.
        ensures cause { result ≡ Err PageFault.Failed
            → Rose (H.faults host.old) (H.faults host.new) }
        ensures whole { H.tells → IsArea self.old.sizes (H.disk host.old).seen
            → IfErr result (λ fault. fault ≡ PageFault.Failed) }
    {
        let block = self.block_of(page);
        self.fill(host, block)?;
        // Opens the invariant of the store.
        let _blocks = self.blocks();
        Ok(block)
    }

    // Gives a page a block of its own, and fills its frame, which is newer from then on.
    pub(crate) fn ready<H: Host>(&mut self, host: &mut H, page: u32) -> Result<u32, PageFault>
        requires lives { Lives self.old page }
        requires spare { IsHeld self.old (page_block self.old page) → 0 < free_count self.old.free }
        // The result.
        ensures ready { IfOk result
            (λ b. Readies H.tells self.old self.new page b (H.disk host.old).seen) }
        ensures store { OnOk result (IsStore self.new) }
        ensures err { OnErr result (self.new ≡ self.old) }
        ensures sound { IsSoundMaps self.old.maps }
        ensures page { page < block_count self.old }
        // The devices.
        ensures reads { ReadsOnly H.Host host.old host.new }
        // The faults.
        ensures cause { result ≡ Err PageFault.Failed
            → Rose (H.faults host.old) (H.faults host.new) }
        ensures whole { H.tells → IsArea self.old.sizes (H.disk host.old).seen
            → IfErr result (λ fault. fault ≡ PageFault.Failed) }
    {
        self.filled(host, page)?;
        let block = self.pay(page);
        // Opens the invariant of the store.
        let _blocks = self.blocks();
        Ok(block)
    }

    // The same of two pages.
    pub(crate) fn ready_both<H: Host>(
        &mut self,
        host: &mut H,
        one: u32,
        other: u32,
    ) -> Result<(u32, u32), PageFault>
        requires lives { Lives self.old one × Lives self.old other }
        requires differ { one ≢ other }
        requires room { price (paid_pages self.old) one + price (paid_pages self.old) other
            ≤ spare_of self.old }
        // The result.
        ensures both { IfOk result
            (λ at. ReadiesBoth H.tells self.old self.new one other at.0 at.1 (H.disk host.old).seen) }
        ensures store { OnOk result (IsStore self.new) }
        ensures kept { OnErr result
            (KeepsPages H.tells self.old self.new one (price (paid_pages self.old) one)
            (H.disk host.old).seen) }
        ensures sound { IsSoundMaps self.old.maps }
        // The devices.
        ensures reads { ReadsOnly H.Host host.old host.new }
        // The faults.
        ensures cause { result ≡ Err PageFault.Failed
            → Rose (H.faults host.old) (H.faults host.new) }
        ensures whole { IsKnown H.tells self.old (H.disk host.old).seen
            → IfErr result (λ fault. fault ≡ PageFault.Failed) }
    {
        // Opens the invariant of the store.
        let _before = self.blocks();
        let first = self.ready(host, one)?;
        let second = self.ready(host, other)?;
        Ok((first, second))
    }
}
