//! Lists that are sorted by table and key. `specs/` says where a key stands in one, and `proofs/`
//! what a binary search finds, and what a list with one more item holds.
#![tactic(auto)]

ghost use Rattle.std.specs.Prelude.{◌≡◌};
ghost use Rattle.mdb_model.specs.Tables.{place_cmp};

use mdb_model::name::Table;
use std::cmp::Ordering;

/// How one place stands to another: by table, and then by the bytes of the key.
pub fn place_order(table: Table, key: &[u8], other: Table, other_key: &[u8]) -> Ordering
    ensures { result ≡ place_cmp (table.0, key.now) (other.0, other_key.now) }
{
    match table.0.cmp(&other.0) {
        Ordering::Equal => key.cmp(other_key),
        unequal => unequal,
    }
}
