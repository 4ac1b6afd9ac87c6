//! What the crates of tables and of undo files keep their bytes on: pages that are lent.
ghost use Rattle.std.specs.Prelude.{◌≡◌, refl, ◌≢◌, ℕ, ◌+◌, ◌≤◌, List, Bool, IsTrue, true, Some, IfOk, OnOk, OnErr, ⊤};
ghost use Rattle.std.specs.Borrow.{sem, LendsSoOk, follows_so, Array, u8};
ghost use Rattle.std.specs.FinMap.{get, insert, remove};
ghost use mathlib.Core.Option.{none};
ghost use Rattle.std.proofs.Common.{◌∙◌};
ghost use Rattle.mdb_bytes.specs.Held.{HasPageCause};
ghost use Rattle.mdb_bytes.specs.Paged.{
  PageBytes,
  PaidPages,
  is_live,
  AsLive,
  is_paid,
  price,
  StayPaid,
  KeepsAllPages,
  WritesPage,
  IsNew,
  MayEdit,
  AreEdited,
};

use mdb_model::fault::PageFault;

/// An edit of two pages, which `write_pair` carries out. It knows nothing of the pages but their
/// bytes, and may refuse them.
pub trait PairEdit {
    /// Which bytes of the two pages it can be given.
    ghost may: { Self → List ℕ → List ℕ → Type 0 };

    /// What it makes of the bytes of the two pages, and what it answers.
    ghost does: { Self → Bool → List ℕ → List ℕ → List ℕ → List ℕ → Type 0 };

    /// Edits both pages, and answers what the caller is to know.
    fn edit(&self, a: &mut [u8; 8192], b: &mut [u8; 8192]) -> bool
        requires { Self.may self.now a.old b.old }
        ensures { Self.does self.now result a.old b.old a.new b.new };
}

/// Pages of 8,192 bytes with numbers below 65,536. The contract does not say on which block of a
/// device a page stands, what an image has of it, when a device is called, or which number a new
/// page gets. Where a call fails, the pages are as they were, and no more spare pages are taken
/// than where it is done.
pub trait Pages {
    /// Whether the bytes of the pages are known: over devices, whether these tell what a read
    /// gives.
    ghost is_known: { Self → Type 0 };

    /// The bytes of each live page. Where they are not known, it says only which pages live.
    ghost pages: { Self → PageBytes };

    /// The pages to which a write needs no new block.
    ghost paid: { Self → PaidPages };

    /// How many pages that are not paid can still be written, new ones included.
    ghost spare: { Self → ℕ };

    /// How often a call on a device has failed.
    ghost faults: { Self → ℕ };

    /// The second value comes from the first by calls: it holds the same borrows.
    ghost follows: { Self → Self → Type 0 };

    ghost follows_itself: { (a : Self) → follows a a };

    ghost follows_on: { (a b c : Self) → follows a b → follows b c → follows a c };

    /// Whether a page lives. It calls no device.
    fn lives(&self, page: u32) -> bool
        ensures lives { result ≡ is_live (Self.pages self.now) page }
        ensures small { IsTrue result → page ≤ 65535 };

    /// Whether the bytes of a page are in memory, so that lending them calls no device. A page that
    /// is not has to come from a device, and its reader tests it then; one that is came from there
    /// before, or was made and written here. It calls no device, and nothing rests on its answer
    /// but how much is tested.
    fn is_in_memory(&self, page: u32) -> bool;

    /// A page that did not live, and is paid from then on. Its bytes are not said, and neither is
    /// which number it gets.
    fn new_page(&mut self) -> Result<u32, PageFault>
        requires { 1 ≤ Self.spare self.old }
        ensures fresh { IfOk result (λ page. IsNew page (Self.is_known self.old)
            (Self.is_known self.new) (Self.pages self.old) (Self.pages self.new)
            (Self.paid self.old) (Self.paid self.new)) }
        ensures kept { OnErr result (KeepsAllPages (Self.is_known self.old) (Self.is_known self.new)
            1 (Self.pages self.old) (Self.pages self.new) (Self.paid self.old) (Self.paid self.new)
            (Self.spare self.old) (Self.spare self.new)) }
        ensures spare { Self.spare self.old ≤ Self.spare self.new + 1 }
        ensures cause { HasPageCause (Self.is_known self.old) (Self.faults self.old)
            (Self.faults self.new) result }
        ensures follows { Self.follows self.old self.new };

    /// Takes a page away. What its block has from then on is not said, and no spare page is
    /// promised for it.
    fn free_page(&mut self, page: u32) -> Result<(), PageFault>
        requires { IsTrue (is_live (Self.pages self.old) page) }
        ensures freed { Self.is_known self.old
            → OnOk result (Self.is_known self.new
            × (Self.pages self.new ≡ remove (Self.pages self.old) page)) }
        ensures gone { OnOk result (AsLive (Self.pages self.new)
            (remove (Self.pages self.old) page)) }
        ensures stay_paid { OnOk result ((other : ℕ) → other ≢ page
            → is_paid (Self.paid self.old) other ≡ true
            → is_paid (Self.paid self.new) other ≡ true) }
        ensures kept { OnErr result (KeepsAllPages (Self.is_known self.old) (Self.is_known self.new)
            0 (Self.pages self.old) (Self.pages self.new) (Self.paid self.old) (Self.paid self.new)
            (Self.spare self.old) (Self.spare self.new)) }
        ensures spare { Self.spare self.old ≤ Self.spare self.new }
        ensures cause { HasPageCause (Self.is_known self.old) (Self.faults self.old)
            (Self.faults self.new) result }
        ensures follows { Self.follows self.old self.new };

    /// Lends the bytes of a page to be read. Whether a device is called for them is not said.
    fn read(&mut self, page: u32) -> Result<&[u8; 8192], PageFault>
        requires { IsTrue (is_live (Self.pages self.old) page) }
        ensures* lends { sem 𝓛 (follows_so Self.row Self.row self.entry.ghost_name none (λ _ _. ⊤)
            (λ left. KeepsAllPages (Self.is_known self.old) (Self.is_known left) 0
            (Self.pages self.old)
            (Self.pages left) (Self.paid self.old) (Self.paid left) (Self.spare self.old)
            (Self.spare left)
            × HasPageCause (Self.is_known self.old) (Self.faults self.old) (Self.faults left) result
            × Self.follows self.old left)) }
        ensures bytes { IfOk result (λ lent. Self.is_known self.old
            → get (Self.pages self.old) page ≡ Some lent.now) };

    /// Lends the bytes of a page to be written. The page is paid from then on. When they reach a
    /// device is not said.
    fn write(&mut self, page: u32) -> Result<&mut [u8; 8192], PageFault>
        requires lives { IsTrue (is_live (Self.pages self.old) page) }
        requires room { price (Self.paid self.old) page ≤ Self.spare self.old }
        ensures* lends { sem 𝓛 (LendsSoOk Self.row (Array u8 8192) self.entry result
            (λ left bytes. WritesPage page bytes (Self.is_known self.old) (Self.is_known left)
            (Self.pages self.old) (Self.pages left) (Self.paid self.old) (Self.paid left)
            (Self.spare self.old) (Self.spare left)
            × HasPageCause (Self.is_known self.old) (Self.faults self.old) (Self.faults left) result
            × Self.follows self.old left)
            (λ left. KeepsAllPages (Self.is_known self.old) (Self.is_known left)
            (price (Self.paid self.old) page) (Self.pages self.old) (Self.pages left)
            (Self.paid self.old) (Self.paid left) (Self.spare self.old) (Self.spare left)
            × HasPageCause (Self.is_known self.old) (Self.faults self.old) (Self.faults left) result
            × Self.follows self.old left)) }
        ensures bytes { IfOk result (λ lent. Self.is_known self.old
            → get (Self.pages self.old) page ≡ Some lent.now) };

    /// Edits two pages at once, and answers what the edit answers. Both pages are paid from then
    /// on, also where the edit refuses them. Where the call fails, there was no edit.
    fn write_pair<E: PairEdit>(&mut self, a: u32, b: u32, edit: &E) -> Result<bool, PageFault>
        requires lives { IsTrue (is_live (Self.pages self.old) a)
            × IsTrue (is_live (Self.pages self.old) b) }
        requires differ { a ≢ b }
        requires room { price (Self.paid self.old) a + price (Self.paid self.old) b
            ≤ Self.spare self.old }
        requires may { MayEdit (Self.is_known self.old) (Self.pages self.old) a b (E.may edit.now) }
        ensures edited { IfOk result (λ answer. AreEdited (E.does edit.now answer) a b
            (Self.is_known self.old) (Self.is_known self.new) (Self.pages self.old)
            (Self.pages self.new) (Self.paid self.old) (Self.paid self.new)) }
        ensures kept { OnErr result (KeepsAllPages (Self.is_known self.old) (Self.is_known self.new)
            (price (Self.paid self.old) a
            + price (Self.paid self.old) b) (Self.pages self.old) (Self.pages self.new)
            (Self.paid self.old) (Self.paid self.new) (Self.spare self.old) (Self.spare self.new)) }
        ensures stay_paid { StayPaid (Self.paid self.old) (Self.paid self.new) }
        ensures spare { Self.spare self.old ≤ Self.spare self.new + price (Self.paid self.old) a
            + price (Self.paid self.old) b }
        ensures cause { HasPageCause (Self.is_known self.old) (Self.faults self.old)
            (Self.faults self.new) result }
        ensures follows { Self.follows self.old self.new };
}

/// Pages that are borrowed: a later value holds the same borrow.
impl<P: Pages> Pages for &mut P {
    ghost is_known = { λ s. P.is_known s.now };

    ghost pages = { λ s. P.pages s.now };

    ghost paid = { λ s. P.paid s.now };

    ghost spare = { λ s. P.spare s.now };

    ghost faults = { λ s. P.faults s.now };

    ghost follows = { λ a b. (b.ghost_name ≡ a.ghost_name) × P.follows a.now b.now };

    ghost follows_itself = { λ a. (refl, P.follows_itself a.now) };

    ghost follows_on = { λ a b c f g. (g.0 ∙ f.0, P.follows_on a.now b.now c.now f.1 g.1) };

    fn lives(&self, page: u32) -> bool {
        (**self).lives(page)
    }

    fn is_in_memory(&self, page: u32) -> bool {
        (**self).is_in_memory(page)
    }

    fn new_page(&mut self) -> Result<u32, PageFault> {
        (**self).new_page()
    }

    fn free_page(&mut self, page: u32) -> Result<(), PageFault> {
        (**self).free_page(page)
    }

    fn read(&mut self, page: u32) -> Result<&[u8; 8192], PageFault> {
        (**self).read(page)
    }

    fn write(&mut self, page: u32) -> Result<&mut [u8; 8192], PageFault> {
        (**self).write(page)
    }

    fn write_pair<E: PairEdit>(&mut self, a: u32, b: u32, edit: &E) -> Result<bool, PageFault> {
        (**self).write_pair(a, b, edit)
    }
}
