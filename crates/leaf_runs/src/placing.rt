//! A row put into a leaf of a run or taken out, wherever there is room.
ghost use Rattle.std.specs.Prelude.{◌≡◌, ◌+◌, ◌≤◌, ◌++◌, ◌∷◌, [], List, Option, IsTrue, IfOk, OnOk};
ghost use Rattle.mdb_model.specs.Script.{is_table, is_key, is_value};
ghost use Rattle.mdb_bytes.specs.Held.{HasPageCause};
ghost use Rattle.mdb_bytes.specs.Paged.{is_live};
ghost use Rattle.mdb_bytes.specs.TablePages.{RowLeaf};
ghost use Rattle.leaf_runs.specs.Edits.{without};
ghost use Rattle.leaf_runs.specs.Runs.{Leaf};
ghost use Rattle.leaf_runs.specs.Steps.{HasLeaf, IsNamedAt};
ghost use Rattle.leaf_runs.specs.Halves.{IsPlaceOn, IsCutOff, AreHalves, IsPutOnOne};
ghost use Rattle.leaf_runs.specs.Loose.{IsLooseRun, Rewrites, IsRound, PutsRowInLeaf, HasHere, HasSpot};

use crate::leaf::first_behind;
use crate::pairs::{SplitAt, is_leaf_of};
use crate::reading::broken;
use crate::writing::{new_leaf, put_on_leaf, split_leaf, take_off_leaf};
use mdb_bytes::Pages;
use mdb_model::fault::{PageFault, Rule};
use mdb_model::name::Table;

/// Makes the first leaf of a table, with one row, and answers its page. Page 0, where no leaf can
/// stand, must live: else the new leaf may get it. Where the call fails, the new leaf may have been
/// left, with the row or without.
pub(crate) fn first_row<P: Pages>(
    pages: &mut P,
    table: Table,
    key: &[u8],
    value: &[u8],
) -> Result<u32, PageFault>
    requires table { IsTrue (is_table table.0) }
    requires key { IsTrue (is_key key.now) }
    requires value { IsTrue (is_value value.now) }
    requires room { 3 ≤ P.spare pages.old }
    // The result.
    ensures made { P.is_known pages.old → IsTrue (is_live (P.pages pages.old) 0)
        → IsLooseRun (P.pages pages.old) table.0 []
        → IfOk result
        (λ page. Rewrites (P.pages pages.old) (P.pages pages.new) table.0
        (record { page = page; rows = (key.now, value.now) ∷ [] } ∷ [])) }
    ensures known { P.is_known pages.old → OnOk result (P.is_known pages.new) }
    // Room and faults.
    ensures spare { P.spare pages.old ≤ P.spare pages.new + 3 }
    ensures cause { HasPageCause (P.is_known pages.old × IsLooseRun (P.pages pages.old) table.0 [])
        (P.faults pages.old) (P.faults pages.new) result }
    ensures follows { P.follows pages.old pages.new }
{
    let page = new_leaf(pages, table)?;
    if !put_on_leaf(pages, table, page, key, value)? {
        return Err(broken(page, Rule::Page));
    }
    Ok(page)
}

// Where the rows after a key begin in a leaf.
fn place_on_leaf<P: Pages>(
    pages: &mut P,
    table: Table,
    page: u32,
    key: &[u8],
) -> Result<usize, PageFault>
    ensures place { P.is_known pages.old
        → IfOk result (IsPlaceOn (P.pages pages.old) page key.now) }
    ensures same { P.is_known pages.old
        → OnOk result (P.is_known pages.new × (P.pages pages.new ≡ P.pages pages.old)) }
    ensures spare { P.spare pages.old ≤ P.spare pages.new }
    ensures cause { HasPageCause (P.is_known pages.old × HasLeaf (P.pages pages.old) table.0 page)
        (P.faults pages.old) (P.faults pages.new) result }
    ensures follows { P.follows pages.old pages.new }
{
    if !pages.lives(page) {
        return Err(broken(page, Rule::Page));
    }
    let bytes = pages.read(page)?;
    if !is_leaf_of(bytes, table, page) {
        return Err(broken(page, Rule::Page));
    }
    Ok(first_behind(bytes, key))
}

// Moves the rows of a leaf after a key to a new leaf, the next one, whose page is answered.
fn split_for<P: Pages>(pages: &mut P, table: Table, page: u32, key: &[u8]) -> Result<u32, PageFault>
    requires table { IsTrue (is_table table.0) }
    requires room { 4 ≤ P.spare pages.old }
    ensures cut { P.is_known pages.old → (leaf : RowLeaf)
        → IsNamedAt (P.pages pages.old) table.0 page leaf
        → IfOk result (IsCutOff (P.pages pages.old) (P.pages pages.new) table.0 page leaf key.now) }
    ensures known { P.is_known pages.old → OnOk result (P.is_known pages.new) }
    ensures spare { P.spare pages.old ≤ P.spare pages.new + 4 }
    ensures cause { HasPageCause (P.is_known pages.old × HasLeaf (P.pages pages.old) table.0 page)
        (P.faults pages.old) (P.faults pages.new) result }
    ensures follows { P.follows pages.old pages.new }
{
    let other = new_leaf(pages, table)?;
    // Never so where the pages are known, since a new page is one that did not live.
    if other == page {
        return Err(broken(page, Rule::Page));
    }
    let at = place_on_leaf(pages, table, page, key)?;
    let edit = SplitAt {
        table,
        from: page,
        to: other,
        at,
    };
    split_leaf(pages, &edit)?;
    Ok(other)
}

// Puts a row into the one of two leaves, or into the other where the one has no room.
fn put_on_either<P: Pages>(
    pages: &mut P,
    table: Table,
    first: u32,
    second: u32,
    key: &[u8],
    value: &[u8],
) -> Result<(), PageFault>
    requires key { IsTrue (is_key key.now) }
    requires value { IsTrue (is_value value.now) }
    requires room { 2 ≤ P.spare pages.old }
    // The result.
    ensures put { P.is_known pages.old → (a b : RowLeaf)
        → AreHalves (P.pages pages.old) table.0 first second key.now a b
        → OnOk result
        (IsPutOnOne (P.pages pages.old) (P.pages pages.new) first second a b key.now
        value.now) }
    ensures known { P.is_known pages.old → OnOk result (P.is_known pages.new) }
    // Room and faults.
    ensures spare { P.spare pages.old ≤ P.spare pages.new + 2 }
    ensures cause { HasPageCause
        (P.is_known pages.old
        × ((a : RowLeaf) × (b : RowLeaf)
        × AreHalves (P.pages pages.old) table.0 first second key.now a b))
        (P.faults pages.old) (P.faults pages.new) result }
    ensures follows { P.follows pages.old pages.new }
{
    if put_on_leaf(pages, table, first, key, value)? {
        return Ok(());
    }
    if !put_on_leaf(pages, table, second, key, value)? {
        return Err(broken(second, Rule::Page));
    }
    Ok(())
}

/// Puts a row into the leaf where its key stands or would stand. Where it has no room there the
/// leaf is split at the key; then the page of the new leaf is answered. Page 0, where no leaf can
/// stand, must live: else the new leaf may get it. Where the call fails, the leaf may have been
/// left without a row of the key, split in two, or beside a new leaf that no other one names.
pub(crate) fn place_in_run<P: Pages>(
    pages: &mut P,
    table: Table,
    page: u32,
    key: &[u8],
    value: &[u8],
) -> Result<Option<u32>, PageFault>
    requires table { IsTrue (is_table table.0) }
    requires key { IsTrue (is_key key.now) }
    requires value { IsTrue (is_value value.now) }
    requires room { 7 ≤ P.spare pages.old }
    // The result.
    ensures placed { P.is_known pages.old → IsTrue (is_live (P.pages pages.old) 0)
        → (front : List Leaf) (here : Leaf) (back : List Leaf)
        → IsLooseRun (P.pages pages.old) table.0 (front ++ here ∷ back) → here.page ≡ page
        → IsRound front key.now back
        → IfOk result
        (PutsRowInLeaf (P.pages pages.old) (P.pages pages.new) table.0 front here back key.now
        value.now) }
    ensures known { P.is_known pages.old → OnOk result (P.is_known pages.new) }
    // Room and faults.
    ensures spare { P.spare pages.old ≤ P.spare pages.new + 7 }
    ensures cause { HasPageCause
        (P.is_known pages.old × HasSpot (P.pages pages.old) table.0 page key.now)
        (P.faults pages.old) (P.faults pages.new) result }
    ensures follows { P.follows pages.old pages.new }
{
    if put_on_leaf(pages, table, page, key, value)? {
        return Ok(None);
    }
    let other = split_for(pages, table, page, key)?;
    put_on_either(pages, table, page, other, key, value)?;
    Ok(Some(other))
}

/// Takes the row with a key out of a leaf of a run, where it has one. Where the call fails, the
/// leaf may have lost it.
pub(crate) fn take_in_run<P: Pages>(
    pages: &mut P,
    table: Table,
    page: u32,
    key: &[u8],
) -> Result<(), PageFault>
    requires room { 1 ≤ P.spare pages.old }
    ensures taken { P.is_known pages.old → (front : List Leaf) (here : Leaf) (back : List Leaf)
        → IsLooseRun (P.pages pages.old) table.0 (front ++ here ∷ back) → here.page ≡ page
        → OnOk result
        (Rewrites (P.pages pages.old) (P.pages pages.new) table.0
        (front ++ record { page = here.page; rows = without key.now here.rows } ∷ back)) }
    ensures known { P.is_known pages.old → OnOk result (P.is_known pages.new) }
    ensures spare { P.spare pages.old ≤ P.spare pages.new + 1 }
    ensures cause { HasPageCause (P.is_known pages.old × HasHere (P.pages pages.old) table.0 page)
        (P.faults pages.old) (P.faults pages.new) result }
    ensures follows { P.follows pages.old pages.new }
{
    take_off_leaf(pages, table, page, key)?;
    Ok(())
}
