//! What the bytes of a table area mean with any stamps. The functions do nothing: their contracts
//! are the laws.
ghost use Rattle.std.specs.Prelude.{◌≡◌, ℕ, ◌+◌, ◌<◌, ◌≤◌, List, [], Some, IsSome, sum_by};
ghost use Rattle.std.specs.FinMap.{get, empty, len};
ghost use Rattle.mdb_model.specs.Pages.{PageMap, committed};
ghost use Rattle.mdb_model.specs.Space.{table_pages, table_cost, tree_pages};
ghost use Rattle.mdb_bytes.specs.declared.logical_pages.Catalogue.{Catalogue};
ghost use Rattle.mdb_bytes.specs.declared.logical_pages.CatalogueEntry.{CatalogueEntry};
ghost use Rattle.mdb_bytes.specs.Forms.{IsWellFormed, reading};
ghost use Rattle.mdb_bytes.specs.PageReadings.{all_images};
ghost use Rattle.mdb_bytes.specs.Paged.{PageBytes};
ghost use Rattle.leaf_runs.specs.Runs.{catalogue_at, HasEntry, rows_in_pages};
ghost use Rattle.leaf_runs.specs.TableAreas.{IsTableArea};
ghost use Rattle.run_forms.specs.Stampless.{bytes_of_pages};

/// A table area is well formed with any stamps.
pub fn an_area_is_formed()
    ensures { (pages : PageMap) → IsTableArea (bytes_of_pages pages) → IsWellFormed pages }
{}

/// Where a map is well formed and has no undo pages, its bytes are a table area.
pub fn a_form_without_undo_is_an_area()
    ensures { (pages : PageMap) → IsWellFormed pages → reading.undo_pages pages ≡ 0
        → ((number : ℕ) → IsSome (get pages number) → number < 65536)
        → IsTableArea (bytes_of_pages pages) }
{}

/// The rows as they stand are those on the leaves. Nothing is left of an open transaction, so these
/// are committed.
pub fn leaves_are_standing()
    ensures standing { (pages : PageMap) → IsTableArea (bytes_of_pages pages)
        → reading.standing pages ≡ Some (rows_in_pages (bytes_of_pages pages)) }
    ensures images { (pages : PageMap) → IsTableArea (bytes_of_pages pages)
        → all_images pages ≡ [] }
    ensures before { (pages : PageMap) → IsTableArea (bytes_of_pages pages)
        → reading.before_images pages ≡ Some empty }
    ensures undo { (pages : PageMap) → IsTableArea (bytes_of_pages pages)
        → reading.undo_pages pages ≡ 0 }
    ensures committed { (pages : PageMap) → IsTableArea (bytes_of_pages pages)
        → committed reading pages ≡ Some (rows_in_pages (bytes_of_pages pages)) }
{}

/// No row has an empty key.
pub fn no_key_is_empty()
    ensures { (pages : PageBytes) (table : ℕ) (value : List ℕ) → IsTableArea pages
        → get (rows_in_pages pages) (table, []) ≡ Some value → ⊥ }
{}

/// How many pages a table area has: the catalogue, the open list, and the leaves of all tables.
/// They are no more than the space rule counts.
pub fn pages_are_counted()
    ensures count { (pages : PageBytes) (catalogue : Catalogue) → IsTableArea pages
        → catalogue_at pages ≡ Some catalogue
        → len pages ≡ 2 + sum_by (λ entry. entry.pages) catalogue.entries }
    ensures table { (pages : PageBytes) (table : ℕ) (entry : CatalogueEntry) → IsTableArea pages
        → 1 ≤ table → table ≤ 500 → HasEntry pages table entry
        → entry.pages ≤ table_pages (table_cost (rows_in_pages pages) (rows_in_pages pages) table) }
    ensures within { (pages : PageBytes) → IsTableArea pages
        → len pages ≤ 2 + tree_pages (rows_in_pages pages) (rows_in_pages pages) }
    ensures stampless { (pages : PageMap) → len (bytes_of_pages pages) ≡ len pages }
{}
