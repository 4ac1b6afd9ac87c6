//! How many pages of a store live where it has rows, and what is spare after a savepoint. The
//! functions do nothing: their contracts are the laws.
ghost use Rattle.std.specs.Prelude.{◌≡◌, ℕ, ◌+◌, ◌≤◌, true};
ghost use Rattle.mdb_model.specs.Images.{Image};
ghost use Rattle.mdb_model.specs.Space.{has_room, tree_pages};
ghost use Rattle.leaf_runs.specs.TableAreas.{IsTableArea};
ghost use Rattle.page_store.specs.LogicalPages.{store_pages};
ghost use Rattle.page_store.specs.Opens.{own_pages};
ghost use Rattle.page_store.specs.Store.{Store, block_count};
ghost use Rattle.page_store.specs.WholeSavepoint.{live_below, spare_after};
ghost use Rattle.store_rows.specs.StoredRows.{stored_rows};

/// The pages that live are the catalogue, the open list, and no more leaves than the space rule
/// counts.
pub fn live_pages_are_counted()
    ensures { (store : Store) (seen : Image) → IsTableArea (store_pages store seen)
        → live_below store (block_count store)
        ≤ 2 + tree_pages (stored_rows store seen) (stored_rows store seen) }
{}

/// Where the rows of a store have room as they are, beside what is kept, 159 pages and as many as
/// are kept are spare after a savepoint. A restart goes on where 64 are.
pub fn rows_with_room_leave_spare()
    ensures { (store : Store) (seen : Image) (kept : ℕ)
        → IsTableArea (store_pages store seen) → store.maps.conv ≡ own_pages (block_count store)
        → has_room (stored_rows store seen) (stored_rows store seen) 0 kept (block_count store)
        ≡ true
        → kept + 159 ≤ spare_after store }
{}
