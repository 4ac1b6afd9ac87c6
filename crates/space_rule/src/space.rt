//! What the space rule counts.
ghost use Rattle.std.specs.Prelude.{◌≡◌, ◌+◌, ◌^◌, ◌<◌, ◌≤◌, replicate};
ghost use Rattle.std.specs.Option.{ForSome};
ghost use Rattle.space_rule.specs.Weighing.{lists, AreSums, HasChangeRoom};

use crate::open_change::OpenChange;
use mdb_model::bytes::Key;
use mdb_model::name::Table;
use std::alloc::Global;

mod calls;

/// A place for each table number; those of tables are 1 to 500.
pub(crate) const TABLES: usize = 501;

/// A place for each session number; those of sessions are 1 to 64.
pub(crate) const SESSIONS: usize = 65;

/// What the space rule knows: the area, what the committed rows of each table cost, and the changes
/// that are not committed. It keeps the sums of the rule as numbers.
#[derive(Drop)]
pub struct Space {
    alloc: Global,
    blocks: u32,
    // the blocks for the snapshots and a backup under way
    kept: u64,
    // for each table, at its number, the committed cost, and how much the open changes add to it
    committed: [u64; TABLES],
    grown: [u64; TABLES],
    // for each session, at its number, its changes by table and key, and what their before images
    // cost
    sessions: [Vec<OpenChange>; SESSIONS],
    undo_bytes: [u64; SESSIONS],
    pages: u64,
    undo: u64,
    // the key of the change for which memory was taken
    prepared: Option<(Table, Key)>,
    ghost kept_small: { kept < 2 ^ 62 },
    ghost sums: { AreSums committed grown (lists sessions) undo_bytes pages undo },
    ghost has_room: { ForSome prepared (λ _. HasChangeRoom sessions) },
}
