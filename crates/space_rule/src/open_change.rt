//! The changes that are not committed.
ghost use Rattle.std.specs.Prelude.{◌≡◌, ◌+◌, ◌^◌, ◌<◌, ◌≤◌};
ghost use Rattle.std.specs.Prelude.{length, map, vec_len, vec_capacity, IfOk, IfErr, IsTrue};
ghost use Rattle.std.specs.Prelude.{sum_by};
ghost use Rattle.mdb_model.specs.Tables.{place_cmp};
ghost use Rattle.mdb_bytes.specs.Fields.{rises};
ghost use Rattle.sorted_places.specs.Search.{IsAt, IsGap};
ghost use Rattle.mdb_model.specs.Script.{is_table};
ghost use Rattle.space_rule.specs.Weighing.{IsInOrder};
ghost use Rattle.space_rule.specs.KnownCosts.{open_place, growth_on, undo_cost, with_open};

use crate::costs::{growth, image_cost};
use mdb_model::bytes::Key;
use mdb_model::name::Table;
use sorted_places::place_order;

/// A row that a session has changed: the lengths of its value before the first change and now, none
/// where there is no row.
#[derive(Drop)]
pub(crate) struct OpenChange {
    pub(crate) table: Table,
    pub(crate) key: Key,
    pub(crate) before: Option<u16>,
    pub(crate) now: Option<u16>,
}

/// The growth of a table and the bytes of a session's before images.
#[derive(Clone, Copy)]
pub(crate) struct Weight {
    pub(crate) grown: u64,
    pub(crate) bytes: u64,
}

// Where the change of a key stands, or where it would go.
fn search(changes: &[OpenChange], table: Table, key: &[u8]) -> Result<usize, usize>
    requires { IsTrue (rises place_cmp (map open_place changes.now)) }
    ensures found { IfOk result (IsAt place_cmp open_place changes.now (table.0, key.now)) }
    ensures absent { IfErr result (IsGap place_cmp open_place changes.now (table.0, key.now)) }
{
    changes.binary_search_by(|change| place_order(change.table, change.key.bytes(), table, key))
}

/// What a table has grown by and what a session's before images cost, with one more change of the
/// session.
pub(crate) fn weight_with(
    changes: &[OpenChange],
    weight: Weight,
    table: Table,
    key: &[u8],
    before: Option<u16>,
    now: Option<u16>,
) -> Weight
    requires ascend { IsTrue (rises place_cmp (map open_place changes.now)) }
    requires key { length key.now ≤ 256 }
    requires grown { sum_by (growth_on table.0) changes.now ≤ weight.grown }
    requires small { (weight.grown < 2 ^ 62) × (weight.bytes < 2 ^ 62) }
    // The result.
    ensures grown { result.grown + sum_by (growth_on table.0) changes.now
        ≡ weight.grown
        + sum_by (growth_on table.0)
        (with_open (record { table = table; key = key.now; before = before; now = now })
        changes.now) }
    ensures bytes { result.bytes + sum_by undo_cost changes.now
        ≡ weight.bytes
        + sum_by undo_cost
        (with_open (record { table = table; key = key.now; before = before; now = now })
        changes.now) }
    ensures grown_small { result.grown ≤ weight.grown + 2 ^ 17 }
    ensures bytes_small { result.bytes ≤ weight.bytes + 2 ^ 17 }
{
    match search(changes, table, key) {
        Ok(at) => {
            let found = &changes[at];
            let grown = weight.grown - growth(key, found.before, found.now)
                + growth(key, found.before, now);
            Weight {
                grown,
                bytes: weight.bytes,
            }
        }
        Err(_) => Weight {
            grown: weight.grown + growth(key, before, now),
            bytes: weight.bytes + image_cost(key, before),
        },
    }
}

/// Adds a change, or sets what the row of an earlier one of its key has now.
pub(crate) fn put_open(changes: &mut Vec<OpenChange>, change: OpenChange)
    requires order { IsInOrder changes.old.items }
    requires table { IsTrue (is_table change.table.0) }
    requires room { vec_len changes.old < vec_capacity changes.old }
    ensures items { changes.new.items ≡ with_open change changes.old.items }
    ensures order { IsInOrder changes.new.items }
{
    match search(changes, change.table, change.key.bytes()) {
        Ok(at) => changes[at].now = change.now,
        Err(at) => {
            // There is room, so it takes no memory and succeeds.
            let _ = changes.insert(at, change);
        }
    }
}
