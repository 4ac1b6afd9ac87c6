//! The catalogue: what page 0 says of each table.
ghost use Rattle.std.specs.Prelude.{◌≡◌, ◌+◌, ◌<◌, ◌≤◌, ◌^◌, IsTrue, IsSome, Some, IfOk, OnOk};
ghost use Rattle.mdb_model.specs.Script.{is_table};
ghost use Rattle.mdb_bytes.specs.Held.{HasPageCause};
ghost use Rattle.leaf_runs.specs.Runs.{HasEntry, catalogue_at};
ghost use Rattle.leaf_runs.specs.Changed.{SetsEntry};
ghost use Rattle.mdb_bytes.specs.declared.logical_pages.Catalogue.{Catalogue};
ghost use Rattle.mdb_bytes.specs.PageReadings.{catalogue_of};

use crate::reading::broken;
use mdb_bytes::{CatalogueEntry, Pages, catalogue_entry_at, decode_catalogue, set_catalogue_entry};
use mdb_model::fault::{PageFault, Rule};
use mdb_model::limits::{LAYOUT_NUMBER_END, PAGE_BYTES};
use mdb_model::name::Table;

// Tests a page for a catalogue before it is read: whole where its bytes come from a device. Where
// they were in memory they were tested as they came there.
fn passes_as_catalogue(page: &[u8; PAGE_BYTES], in_memory: bool) -> bool
    ensures { (catalogue : Catalogue) → catalogue_of page.now ≡ Some catalogue → IsTrue result }
{
    if in_memory {
        return true;
    }
    match decode_catalogue(page) {
        Some(_) => true,
        None => false,
    }
}

/// What the catalogue says of a table.
pub(crate) fn read_entry<P: Pages>(pages: &mut P, table: Table) -> Result<CatalogueEntry, PageFault>
    requires { IsTrue (is_table table.0) }
    ensures entry { P.is_known pages.old → IsSome (catalogue_at (P.pages pages.old))
        → IfOk result (HasEntry (P.pages pages.old) table.0) }
    ensures same { P.is_known pages.old
        → OnOk result (P.is_known pages.new × (P.pages pages.new ≡ P.pages pages.old)) }
    ensures spare { P.spare pages.old ≤ P.spare pages.new }
    ensures cause { HasPageCause (P.is_known pages.old × IsSome (catalogue_at (P.pages pages.old)))
        (P.faults pages.old) (P.faults pages.new) result }
    ensures follows { P.follows pages.old pages.new }
{
    if !pages.lives(0) {
        return Err(broken(0, Rule::Page));
    }
    let in_memory = pages.is_in_memory(0);
    let bytes = pages.read(0)?;
    if !passes_as_catalogue(bytes, in_memory) {
        return Err(broken(0, Rule::Page));
    }
    Ok(catalogue_entry_at(bytes, table.0 as usize - 1))
}

/// Sets what the catalogue says of a table. It has room for costs below 2^62.
pub(crate) fn write_entry<P: Pages>(
    pages: &mut P,
    table: Table,
    entry: CatalogueEntry,
) -> Result<(), PageFault>
    requires table { IsTrue (is_table table.0) }
    requires room { 1 ≤ P.spare pages.old }
    ensures set { P.is_known pages.old → IsSome (catalogue_at (P.pages pages.old))
        → OnOk result (SetsEntry (P.pages pages.old) (P.pages pages.new) table.0 entry) }
    ensures known { P.is_known pages.old → OnOk result (P.is_known pages.new) }
    ensures spare { P.spare pages.old ≤ P.spare pages.new + 1 }
    ensures cause { HasPageCause
        (P.is_known pages.old × IsSome (catalogue_at (P.pages pages.old)) × (entry.cost < 2 ^ 62))
        (P.faults pages.old) (P.faults pages.new) result }
    ensures follows { P.follows pages.old pages.new }
{
    if entry.cost >= LAYOUT_NUMBER_END {
        return Err(broken(0, Rule::Page));
    }
    if !pages.lives(0) {
        return Err(broken(0, Rule::Page));
    }
    let in_memory = pages.is_in_memory(0);
    let bytes = pages.write(0)?;
    if !passes_as_catalogue(bytes, in_memory) {
        return Err(broken(0, Rule::Page));
    }
    set_catalogue_entry(bytes, table.0 as usize - 1, &entry);
    Ok(())
}
