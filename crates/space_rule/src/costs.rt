//! What rows, tables, transactions and areas cost.
ghost use Rattle.std.specs.Prelude.{◌≡◌, ◌+◌, ◌-◌, ◌^◌, ◌<◌, ◌≤◌, length, unwrap_or};
ghost use Rattle.mdb_model.specs.Space.{table_pages, converter_pages};
ghost use Rattle.space_rule.specs.KnownCosts.{cost_of_lengths, undo_pages_for};

use mdb_model::limits::PAGE_ROOM;

// Bytes of a page that its entries use.
const ROOM: u64 = PAGE_ROOM as u64;

// Entries of a leaf of the converter.
const LEAF_ENTRIES: u64 = 600;

/// The bytes of a row with a value of this length; none where there is no row.
pub(crate) fn row_cost(key: &[u8], value: Option<u16>) -> u64
    requires { length key.now < 2 ^ 62 }
    ensures cost { result ≡ cost_of_lengths (length key.now) value }
    ensures small { result ≤ length key.now + 2 ^ 17 }
{
    match value {
        Some(len) => 8 + key.len() as u64 + len as u64,
        None => 0,
    }
}

/// How much a change of the row makes a table grow.
pub(crate) fn growth(key: &[u8], before: Option<u16>, now: Option<u16>) -> u64
    requires { length key.now < 2 ^ 62 }
    ensures { result ≡ cost_of_lengths (length key.now) now
        - cost_of_lengths (length key.now) before }
{
    row_cost(key, now).saturating_sub(row_cost(key, before))
}

/// The pages of a table whose rows cost this number of bytes.
pub(crate) fn table_page_count(cost: u64) -> u64
    requires { cost < 2 ^ 62 + 2 ^ 20 }
    ensures count { result ≡ table_pages cost }
    ensures small { result ≤ 2 ^ 52 }
{
    if cost == 0 {
        0
    } else if cost <= ROOM {
        1
    } else {
        4 + (3 * cost + ROOM - 1) / ROOM
    }
}

/// The undo pages of a transaction whose before images cost this number
/// of bytes.
pub(crate) fn undo_page_count(bytes: u64) -> u64
    requires { bytes < 2 ^ 62 + 2 ^ 20 }
    ensures count { result ≡ undo_pages_for bytes }
    ensures small { result ≤ 2 ^ 52 }
{
    if bytes == 0 {
        0
    } else {
        1 + (2 * bytes + ROOM - 1) / ROOM
    }
}

/// The pages of a converter of this number of blocks.
pub(crate) fn converter_page_count(blocks: u32) -> u64
    ensures count { result ≡ converter_pages blocks }
    ensures small { result ≤ 2 ^ 32 }
{
    1 + (blocks as u64 + LEAF_ENTRIES - 1) / LEAF_ENTRIES
}

/// The bytes of the image of a row before its change.
pub(crate) fn image_cost(key: &[u8], before: Option<u16>) -> u64
    requires { length key.now < 2 ^ 62 }
    ensures { result ≡ 16 + length key.now + unwrap_or before 0 }
{
    let value = match before {
        Some(len) => len as u64,
        None => 0,
    };
    16 + key.len() as u64 + value
}
