//! The pages that a backup copies.
ghost use Rattle.std.specs.Prelude.{◌≡◌, ℕ, ◌∷◌, List, IfOk, IfErr, Err};
ghost use Rattle.std.specs.FinMap.{contains_key};
ghost use Rattle.mdb_model.specs.Causes.{Rose};
ghost use Rattle.mdb_model.specs.Images.{Image};
ghost use Rattle.mdb_model.specs.Pages.{Page, PageMap};
ghost use Rattle.mdb_model.specs.declared.fault.Device.TheVariants.{Medium};
ghost use Rattle.mdb_host.specs.Disk.{AgreeBut};
ghost use Rattle.mdb_host.specs.Reads.{ReadsOnly};
ghost use Rattle.data_backup.specs.Frozen.{pages_left, IsFirstOf};

use mdb_host::Host;
use mdb_model::fault::PageFault;

/// The pages of a savepoint, which stay readable as they were then while later savepoints come.
pub trait FrozenPages {
    /// The pages, each with the bytes that it has where a read gives this image. Which pages there
    /// are, and their stamps, may be known where no image is.
    ghost frozen: { Self → Image → PageMap };

    /// Whether the devices of the pages are whole in the image.
    ghost is_known: { Self → Image → Type 0 };

    /// The second value comes from the first by calls: it holds the same borrows.
    ghost follows: { Self → Self → Type 0 };

    ghost follows_itself: { (a : Self) → follows a a };

    ghost follows_on: { (a b c : Self) → follows a b → follows b c → follows a c };

    /// The pages stay as they are.
    ghost stays_frozen: { (a b : Self) → follows a b → frozen b ≡ frozen a };

    ghost stays_known: { (a b : Self) (image : Image) → follows a b → is_known a image
        → is_known b image };

    /// No page stands on a medium.
    ghost off_media: { (a : Self) (medium : ℕ) (old new : Image) → AgreeBut (Medium medium) old new
        → frozen a new ≡ frozen a old };

    ghost known_off_media: { (a : Self) (medium : ℕ) (old new : Image)
        → AgreeBut (Medium medium) old new → is_known a old → is_known a new };

    /// Whether the frozen map has a page. It calls no device.
    fn lives(&self, page: u32) -> bool
        ensures { (image : Image) → result ≡ contains_key (Self.frozen self.now image) page };

    /// Copies the least page after `after`, or the least of all, that was written after the
    /// savepoint of the number `base`, 0 for all pages; none where there is none. After a fault
    /// `into` may hold any bytes.
    fn next_page<H: Host>(
        &mut self,
        host: &mut H,
        after: Option<u32>,
        base: u64,
        into: &mut [u8; 8192],
    ) -> Result<Option<u32>, PageFault>
        // The result.
        ensures found { IfOk result (λ found. (image : Image)
            → IsFirstOf found (pages_left base after (Self.frozen self.old image))) }
        ensures bytes { IfOk result (λ found. H.tells
            → Self.is_known self.old (H.disk host.old).seen
            → (page : ℕ × Page) (rest : List (ℕ × Page))
            → pages_left base after (Self.frozen self.old (H.disk host.old).seen) ≡ page ∷ rest
            → into.new ≡ page.1.bytes) }
        ensures follows { Self.follows self.old self.new }
        // The devices.
        ensures reads { ReadsOnly H.Host host.old host.new }
        // The faults.
        ensures cause { result ≡ Err PageFault.Failed
            → Rose (H.faults host.old) (H.faults host.new) }
        ensures whole { H.tells → Self.is_known self.old (H.disk host.old).seen
            → IfErr result (λ fault. fault ≡ PageFault.Failed) };
}
