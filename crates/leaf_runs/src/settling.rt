//! What is done to a run after a change, so that its leaves fill two pages each.
ghost use Rattle.std.specs.Prelude.{◌≡◌, ◌+◌, ◌^◌, ◌<◌, ◌≤◌, ◌++◌, ◌∷◌, [], ℕ};
ghost use Rattle.std.specs.Prelude.{List, Option, IsTrue, IfOk, OnOk};
ghost use Rattle.mdb_bytes.specs.Held.{HasPageCause};
ghost use Rattle.mdb_bytes.specs.Forms.{Neighbours};
ghost use Rattle.leaf_runs.specs.Runs.{Leaf, LeavesFillTwo};
ghost use Rattle.leaf_runs.specs.Loose.{IsLooseRun, Rewrites, HasHere, IsJoinTry, IsChangedRun};
ghost use Rattle.leaf_runs.specs.Loose.{HasChangedRun, JoinsLeaves};
ghost use Rattle.leaf_runs.specs.Steps.{HasLeaf};
ghost use Rattle.leaf_runs.specs.Tries.{IsFilled, IsOptionTry, HasOptionHere};

use crate::pairs::{JoinNext, passes_as_leaf};
use crate::reading::broken;
use crate::writing::join_leaves;
use mdb_bytes::Pages;
use mdb_model::fault::{PageFault, Rule};
use mdb_model::limits::PAGE_ROOM;
use mdb_model::name::Table;
use row_page::{next_of, used_of};

/// What is asked of a leaf before it is joined.
#[derive(Clone, Copy, Debug)]
struct Fill {
    /// The bytes that its rows use.
    used: usize,
    /// The page of the next leaf, 0 for none.
    next: u32,
}

// How full a leaf is, and which page it names as the next one.
fn used_and_next<P: Pages>(pages: &mut P, table: Table, page: u32) -> Result<Fill, PageFault>
    ensures filled { P.is_known pages.old → HasLeaf (P.pages pages.old) table.0 page
        → IfOk result (IsFilled (P.pages pages.old) table.0 page) }
    ensures within { IfOk result (λ fill. fill.used < 2 ^ 16) }
    ensures same { P.is_known pages.old
        → OnOk result (P.is_known pages.new × (P.pages pages.new ≡ P.pages pages.old)) }
    ensures spare { P.spare pages.old ≤ P.spare pages.new }
    ensures cause { HasPageCause (P.is_known pages.old × HasLeaf (P.pages pages.old) table.0 page)
        (P.faults pages.old) (P.faults pages.new) result }
    ensures follows { P.follows pages.old pages.new }
{
    if !pages.lives(page) {
        return Err(broken(page, Rule::Page));
    }
    let in_memory = pages.is_in_memory(page);
    let bytes = pages.read(page)?;
    if !passes_as_leaf(bytes, in_memory, table, page) {
        return Err(broken(page, Rule::Page));
    }
    Ok(Fill {
        used: used_of(bytes),
        next: next_of(bytes),
    })
}

/// Joins a leaf of a run with the next one, where there is one and both go on one page. Where the
/// call fails, the two leaves may have been left half joined.
pub(crate) fn join_if_fits<P: Pages>(
    pages: &mut P,
    table: Table,
    first: u32,
) -> Result<bool, PageFault>
    requires room { 2 ≤ P.spare pages.old }
    ensures joined { P.is_known pages.old → (front : List Leaf) (here : Leaf) (back : List Leaf)
        → IsLooseRun (P.pages pages.old) table.0 (front ++ here ∷ back) → here.page ≡ first
        → Neighbours LeavesFillTwo back
        → IfOk result (IsJoinTry (P.pages pages.old) (P.pages pages.new) table.0 front here back) }
    ensures known { P.is_known pages.old → OnOk result (P.is_known pages.new) }
    ensures spare { P.spare pages.old ≤ P.spare pages.new + 2 }
    ensures cause { HasPageCause (P.is_known pages.old × HasHere (P.pages pages.old) table.0 first)
        (P.faults pages.old) (P.faults pages.new) result }
    ensures follows { P.follows pages.old pages.new }
{
    let here = used_and_next(pages, table, first)?;
    if here.next == 0 {
        return Ok(false);
    }
    let there = used_and_next(pages, table, here.next)?;
    if here.used + there.used > PAGE_ROOM {
        return Ok(false);
    }
    if here.next == first {
        return Err(broken(first, Rule::Page));
    }
    let edit = JoinNext {
        table,
        first,
        second: here.next,
    };
    join_leaves(pages, &edit)?;
    Ok(true)
}

// Joins a leaf with the next one as above, where there is a leaf, and counts the joins.
fn join_some<P: Pages>(pages: &mut P, table: Table, page: Option<u32>) -> Result<u32, PageFault>
    requires room { 2 ≤ P.spare pages.old }
    ensures tried { P.is_known pages.old
        → IfOk result (IsOptionTry (P.pages pages.old) (P.pages pages.new) table.0 page) }
    ensures few { IfOk result (λ joined. joined ≤ 1) }
    ensures known { P.is_known pages.old → OnOk result (P.is_known pages.new) }
    ensures spare { P.spare pages.old ≤ P.spare pages.new + 2 }
    ensures cause { HasPageCause
        (P.is_known pages.old × HasOptionHere (P.pages pages.old) table.0 page) (P.faults pages.old)
        (P.faults pages.new) result }
    ensures follows { P.follows pages.old pages.new }
{
    let Some(page) = page else {
        return Ok(0);
    };
    let joined = join_if_fits(pages, table, page)?;
    Ok(u32::from(joined))
}

/// Joins the leaves of a change with those beside them where two go on one page, and answers how
/// many were joined to the one before: three at most. Where the call fails, some may have been
/// joined, and two of them half.
pub(crate) fn settle<P: Pages>(
    pages: &mut P,
    table: Table,
    before: Option<u32>,
    page: u32,
    other: Option<u32>,
) -> Result<u32, PageFault>
    requires room { 6 ≤ P.spare pages.old }
    ensures settled { P.is_known pages.old → (front parts back : List Leaf)
        → IsChangedRun (P.pages pages.old) table.0 front parts back before page other
        → IfOk result
        (JoinsLeaves (P.pages pages.old) (P.pages pages.new) table.0 (front ++ (parts ++ back))) }
    ensures few { IfOk result (λ joined. joined ≤ 3) }
    ensures known { P.is_known pages.old → OnOk result (P.is_known pages.new) }
    ensures spare { P.spare pages.old ≤ P.spare pages.new + 6 }
    ensures cause { HasPageCause
        (P.is_known pages.old × HasChangedRun (P.pages pages.old) table.0 before page other)
        (P.faults pages.old) (P.faults pages.new) result }
    ensures follows { P.follows pages.old pages.new }
{
    // From right to left: the leaves after the one in question fill two pages each by then.
    let behind = join_some(pages, table, other)?;
    let here = join_some(pages, table, Some(page))?;
    let ahead = join_some(pages, table, before)?;
    Ok(behind + here + ahead)
}

/// Takes the only leaf of a table away. Where the call fails, the leaf stays.
pub(crate) fn drop_leaf<P: Pages>(pages: &mut P, page: u32) -> Result<(), PageFault>
    ensures dropped { P.is_known pages.old → (table : ℕ) (here : Leaf)
        → IsLooseRun (P.pages pages.old) table (here ∷ []) → here.page ≡ page
        → OnOk result (Rewrites (P.pages pages.old) (P.pages pages.new) table []) }
    ensures known { P.is_known pages.old → OnOk result (P.is_known pages.new) }
    ensures spare { P.spare pages.old ≤ P.spare pages.new }
    ensures cause { HasPageCause
        (P.is_known pages.old
        × ((table : ℕ) × (here : Leaf) × IsLooseRun (P.pages pages.old) table (here ∷ [])
        × (here.page ≡ page)))
        (P.faults pages.old) (P.faults pages.new) result }
    ensures follows { P.follows pages.old pages.new }
{
    if !pages.lives(page) {
        return Err(broken(page, Rule::Page));
    }
    pages.free_page(page)
}
