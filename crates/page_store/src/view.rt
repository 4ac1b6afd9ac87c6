//! The pages of a store that are lent with its devices.
ghost use Rattle.std.specs.Prelude.{◌≡◌, refl};
ghost use Rattle.std.proofs.Common.{◌∙◌};
ghost use Rattle.page_store.specs.Store.{Store, IsKnown, spare_of};
ghost use Rattle.page_store.specs.LogicalPages.{store_pages, paid_pages};
ghost use Rattle.page_store.specs.Steps.{KeepsStore};
ghost use Rattle.page_store.specs.StepLaws.{keeps_itself, keeps_further};

use crate::store::PageStore;
use mdb_bytes::{Pages, PairEdit};
use mdb_host::Host;
use mdb_model::fault::PageFault;
use mdb_model::limits::PAGE_BYTES;

/// A store and its devices, lent together: the pages of the store. Its bytes are known where the
/// host tells, and the frames agree with what a read gives.
#[derive(Drop)]
pub struct StoreView<'a, H> {
    store: &'a mut PageStore,
    host: &'a mut H,
}

impl PageStore {
    /// Lends the store with its devices.
    pub fn view<'a, H: Host>(&'a mut self, host: &'a mut H) -> StoreView<'a, H>
        ensures store { (result.store.ghost_name ≡ self.entry.ghost_name)
            × (result.store.now ≡ self.entry.now) }
        ensures host { (result.host.ghost_name ≡ host.entry.ghost_name)
            × (result.host.now ≡ host.entry.now) }
    {
        StoreView { store: self, host }
    }
}

impl<'a, H: Host> Pages for StoreView<'a, H> {
    ghost is_known = { λ s. IsKnown H.tells s.store.now (H.disk s.host.now).seen };

    ghost pages = { λ s. store_pages s.store.now (H.disk s.host.now).seen };

    ghost paid = { λ s. paid_pages s.store.now };

    ghost spare = { λ s. spare_of s.store.now };

    ghost faults = { λ s. H.faults s.host.now };

    ghost follows = { λ a b. (b.store.ghost_name ≡ a.store.ghost_name)
        × (b.host.ghost_name ≡ a.host.ghost_name)
        × KeepsStore H.tells a.store.now b.store.now (H.disk a.host.now) (H.disk b.host.now)
        × (H.say_faults b.host.now ≡ H.say_faults a.host.now) };

    ghost follows_itself = { λ a. (
      refl,
      refl,
      keeps_itself H.tells a.store.now (H.disk a.host.now),
      refl,
    ) };

    ghost follows_on = { λ a b c f g. (
      g.0 ∙ f.0,
      g.1 ∙ f.1,
      keeps_further H.tells a.store.now b.store.now c.store.now
          (H.disk a.host.now) (H.disk b.host.now) (H.disk c.host.now) f.2 g.2,
      g.3 ∙ f.3,
    ) };

    fn lives(&self, page: u32) -> bool {
        let store = &*self.store;
        // Opens the invariant of the store.
        let _blocks = store.blocks();
        store.lives(page)
    }

    fn is_in_memory(&self, page: u32) -> bool {
        self.store.is_framed(page)
    }

    fn new_page(&mut self) -> Result<u32, PageFault> {
        let page = self.store.make_new();
        Ok(page)
    }

    fn free_page(&mut self, page: u32) -> Result<(), PageFault> {
        self.store.make_free(page);
        Ok(())
    }

    fn read(&mut self, page: u32) -> Result<&[u8; PAGE_BYTES], PageFault> {
        let block = self.store.filled(self.host, page)?;
        Ok(self.store.frame(block))
    }

    fn write(&mut self, page: u32) -> Result<&mut [u8; PAGE_BYTES], PageFault> {
        let block = self.store.ready(self.host, page)?;
        Ok(self.store.frame_mut(block))
    }

    fn write_pair<E: PairEdit>(
        &mut self,
        one: u32,
        other: u32,
        edit: &E,
    ) -> Result<bool, PageFault> {
        let (first, second) = self.store.ready_both(self.host, one, other)?;
        let answer = self.store.edit_both(first, second, edit);
        Ok(answer)
    }
}
