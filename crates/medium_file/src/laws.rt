//! What a sealed medium gives when it is read. The function does nothing: its contract is the law.
ghost use Rattle.std.specs.Prelude.{◌≡◌, ℕ, ◌+◌, ◌*◌, ◌≤◌, List, length, take, drop, Some};
ghost use Rattle.mdb_model.specs.Images.{Image};
ghost use Rattle.mdb_bytes.specs.declared.medium_pages.MediumHeader.{MediumHeader};
ghost use Rattle.mdb_bytes.specs.MediumPages.{medium_header_format};
ghost use Rattle.mdb_bytes.specs.Parts.{page_len, KeepsLimits};
ghost use Rattle.medium_file.specs.Media.{Holds, IsSealed, page_on};

/// A medium that was sealed holds its header, and its pages are those that were appended.
pub fn what_was_sealed_is_read()
    ensures header { (image : Image) (medium : ℕ) (header : MediumHeader) (content : List ℕ)
        → KeepsLimits medium_header_format header → IsSealed image medium header content
        → Holds image medium (Some header) }
    ensures page { (image : Image) (medium page : ℕ) (header : MediumHeader) (content : List ℕ)
        → KeepsLimits medium_header_format header → IsSealed image medium header content
        → page_len * (1 + page) ≤ length content
        → page_on image medium (1 + page) ≡ take page_len (drop (page_len * page) content) }
{}
