//! What is written on the leaves of a table, one or two pages at a time: the steps that putting and
//! deleting rows are made of. No step keeps the catalogue, nor that neighbours fill two pages.
ghost use Rattle.std.specs.Prelude.{◌≡◌, ◌≢◌, ◌+◌, ◌<◌, ◌≤◌, ◌++◌, ℕ, []};
ghost use Rattle.std.specs.Prelude.{List, T, length, IsTrue, true, Some, IfOk, OnOk, is_some};
ghost use Rattle.std.specs.FinMap.{find, is_sorted};
ghost use Rattle.mdb_bytes.specs.Parts.{page_room};
ghost use Rattle.mdb_model.specs.Script.{is_table, is_key, is_value};
ghost use Rattle.mdb_bytes.specs.Held.{HasPageCause};
ghost use Rattle.mdb_bytes.specs.TablePages.{RowLeaf, rows_cost};
ghost use Rattle.row_page.specs.Entries.{by_bytes};
ghost use Rattle.leaf_runs.specs.Edits.{with_rows, without};
ghost use Rattle.leaf_runs.specs.Runs.{leaf_at};
ghost use Rattle.leaf_runs.specs.Steps.{SetsLeaf, HasLeaf, IsPutOn, IsNewLeaf, IsNamedAt};
ghost use Rattle.leaf_runs.specs.Steps.{IsSplitOff, IsJoinedTo, MaySplit, MayJoin};

use crate::editing::{del_row, put_row};
use crate::pairs::{JoinNext, SplitAt, passes_as_leaf};
use crate::reading::broken;
use mdb_bytes::Pages;
use mdb_model::fault::{PageFault, Rule};
use mdb_model::name::Table;
use row_page::start;

/// Puts a row into a leaf; false where it has no room there, and then the leaf has no row with the
/// key.
pub(crate) fn put_on_leaf<P: Pages>(
    pages: &mut P,
    table: Table,
    page: u32,
    key: &[u8],
    value: &[u8],
) -> Result<bool, PageFault>
    requires key { IsTrue (is_key key.now) }
    requires value { IsTrue (is_value value.now) }
    requires room { 1 ≤ P.spare pages.old }
    // The result.
    ensures put { P.is_known pages.old → HasLeaf (P.pages pages.old) table.0 page
        → IfOk result
        (λ done. (leaf : RowLeaf) × (leaf_at (P.pages pages.old) page ≡ Some leaf)
        × IsPutOn done (P.pages pages.old) (P.pages pages.new) page leaf key.now
        value.now) }
    ensures known { P.is_known pages.old → OnOk result (P.is_known pages.new) }
    // Room and faults.
    ensures spare { P.spare pages.old ≤ P.spare pages.new + 1 }
    ensures cause { HasPageCause (P.is_known pages.old × HasLeaf (P.pages pages.old) table.0 page)
        (P.faults pages.old) (P.faults pages.new) result }
    ensures follows { P.follows pages.old pages.new }
{
    if !pages.lives(page) {
        return Err(broken(page, Rule::Page));
    }
    let in_memory = pages.is_in_memory(page);
    let bytes = pages.write(page)?;
    if !passes_as_leaf(bytes, in_memory, table, page) {
        return Err(broken(page, Rule::Page));
    }
    Ok(put_row(bytes, key, value))
}

/// Takes the row with a key out of a leaf; false where the leaf has no such row.
pub(crate) fn take_off_leaf<P: Pages>(
    pages: &mut P,
    table: Table,
    page: u32,
    key: &[u8],
) -> Result<bool, PageFault>
    requires room { 1 ≤ P.spare pages.old }
    ensures taken { P.is_known pages.old → HasLeaf (P.pages pages.old) table.0 page
        → IfOk result
        (λ taken. (leaf : RowLeaf) × (leaf_at (P.pages pages.old) page ≡ Some leaf)
        × (taken ≡ is_some (find by_bytes key.now leaf.rows))
        × SetsLeaf (P.pages pages.old) (P.pages pages.new) page
        (with_rows leaf leaf.next (without key.now leaf.rows))) }
    ensures known { P.is_known pages.old → OnOk result (P.is_known pages.new) }
    ensures spare { P.spare pages.old ≤ P.spare pages.new + 1 }
    ensures cause { HasPageCause (P.is_known pages.old × HasLeaf (P.pages pages.old) table.0 page)
        (P.faults pages.old) (P.faults pages.new) result }
    ensures follows { P.follows pages.old pages.new }
{
    if !pages.lives(page) {
        return Err(broken(page, Rule::Page));
    }
    let in_memory = pages.is_in_memory(page);
    let bytes = pages.write(page)?;
    if !passes_as_leaf(bytes, in_memory, table, page) {
        return Err(broken(page, Rule::Page));
    }
    Ok(del_row(bytes, key))
}

/// A new leaf of a table, without rows.
pub(crate) fn new_leaf<P: Pages>(pages: &mut P, table: Table) -> Result<u32, PageFault>
    requires table { IsTrue (is_table table.0) }
    requires room { 2 ≤ P.spare pages.old }
    ensures made { P.is_known pages.old
        → IfOk result (λ page. IsNewLeaf (P.pages pages.old) (P.pages pages.new) table.0 page) }
    ensures known { P.is_known pages.old → OnOk result (P.is_known pages.new) }
    ensures spare { P.spare pages.old ≤ P.spare pages.new + 2 }
    ensures cause { HasPageCause (P.is_known pages.old) (P.faults pages.old) (P.faults pages.new)
        result }
    ensures follows { P.follows pages.old pages.new }
{
    let page = pages.new_page()?;
    let bytes = pages.write(page)?;
    start(bytes, 0, table, page);
    Ok(page)
}

/// Moves the rows of a leaf from a place on to a leaf without rows, which becomes the next one.
pub(crate) fn split_leaf<P: Pages>(pages: &mut P, edit: &SplitAt) -> Result<(), PageFault>
    requires differ { edit.now.from ≢ edit.now.to }
    requires room { 2 ≤ P.spare pages.old }
    ensures split { P.is_known pages.old → (leaf blank : RowLeaf)
        → IsNamedAt (P.pages pages.old) edit.now.table.0 edit.now.from leaf
        → IsNamedAt (P.pages pages.old) edit.now.table.0 edit.now.to blank → blank.rows ≡ []
        → edit.now.at ≤ length leaf.rows
        → OnOk result
        (IsSplitOff (P.pages pages.old) (P.pages pages.new) edit.now.from edit.now.to
        edit.now.at leaf blank) }
    ensures known { P.is_known pages.old → OnOk result (P.is_known pages.new) }
    ensures spare { P.spare pages.old ≤ P.spare pages.new + 2 }
    ensures cause { HasPageCause
        (P.is_known pages.old
        × MaySplit (P.pages pages.old) edit.now.table.0 edit.now.from edit.now.to edit.now.at)
        (P.faults pages.old) (P.faults pages.new) result }
    ensures follows { P.follows pages.old pages.new }
{
    if !pages.lives(edit.from) {
        return Err(broken(edit.from, Rule::Page));
    }
    if !pages.lives(edit.to) {
        return Err(broken(edit.to, Rule::Page));
    }
    if !pages.write_pair(edit.from, edit.to, edit)? {
        return Err(broken(edit.from, Rule::Page));
    }
    Ok(())
}

/// Moves the rows of the next leaf after those of a leaf, and takes its page away.
pub(crate) fn join_leaves<P: Pages>(pages: &mut P, edit: &JoinNext) -> Result<(), PageFault>
    requires differ { edit.now.first ≢ edit.now.second }
    requires room { 2 ≤ P.spare pages.old }
    ensures joined { P.is_known pages.old → (leaf next : RowLeaf)
        → IsNamedAt (P.pages pages.old) edit.now.table.0 edit.now.first leaf
        → IsNamedAt (P.pages pages.old) edit.now.table.0 edit.now.second next
        → T (is_sorted by_bytes (leaf.rows ++ next.rows))
        → rows_cost leaf.rows + rows_cost next.rows ≤ page_room
        → OnOk result
        (IsJoinedTo (P.pages pages.old) (P.pages pages.new) edit.now.first edit.now.second leaf
        next) }
    ensures known { P.is_known pages.old → OnOk result (P.is_known pages.new) }
    ensures spare { P.spare pages.old ≤ P.spare pages.new + 2 }
    ensures cause { HasPageCause
        (P.is_known pages.old
        × MayJoin (P.pages pages.old) edit.now.table.0 edit.now.first edit.now.second)
        (P.faults pages.old) (P.faults pages.new) result }
    ensures follows { P.follows pages.old pages.new }
{
    if !pages.lives(edit.first) {
        return Err(broken(edit.first, Rule::Page));
    }
    if !pages.lives(edit.second) {
        return Err(broken(edit.second, Rule::Page));
    }
    if !pages.write_pair(edit.first, edit.second, edit)? {
        return Err(broken(edit.second, Rule::Page));
    }
    if !pages.lives(edit.second) {
        return Err(broken(edit.second, Rule::Page));
    }
    pages.free_page(edit.second)
}
