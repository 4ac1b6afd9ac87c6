//! Where a change stands.
ghost use Rattle.std.specs.Prelude.{◌≡◌, Some, refl};
ghost use Rattle.std.specs.Cmp.{eq_by_cmp_equiv, partial_equiv_from_equiv, po};
ghost use Rattle.std.specs.Ordering.{eq_by_cmp};
ghost use Rattle.mdb_model.specs.Tables.{place_cmp};
ghost use Rattle.sorted_places.proofs.Places.{place_total};

use mdb_model::bytes::KeyBuf;
use mdb_model::name::Table;
use sorted_places::place_order;
use std::cmp::Ordering;
use std::marker::Model;

/// Where a change stands: its table and the bytes of its key. It takes no memory, so that a change
/// can be looked up in any state.
#[derive(Drop)]
pub struct ChangePlace {
    table: Table,
    key: KeyBuf,
}

impl Model for ChangePlace {
    ghost use Rattle.mdb_model.specs.Tables.{Place};

    ghost Value = { Place };

    ghost view = { λ place. (place.table.0, place.key.items) };
}

impl PartialEq for ChangePlace {
    ghost eq = { eq_by_cmp place_cmp };

    ghost laws = { partial_equiv_from_equiv (eq_by_cmp_equiv place_total) };

    fn eq(&self, other: &ChangePlace) -> bool {
        self.cmp(other) == Ordering::Equal
    }
}

impl Eq for ChangePlace {
    ghost laws = { eq_by_cmp_equiv place_total };
}

impl PartialOrd for ChangePlace {
    ghost partial_cmp = { λ a b. Some (place_cmp a b) };

    ghost laws = { po place_total (λ a b. refl) };

    fn partial_cmp(&self, other: &ChangePlace) -> Option<Ordering> {
        Some(self.cmp(other))
    }
}

/// Places are ordered by table, and then by the bytes of the key.
impl Ord for ChangePlace {
    ghost cmp = { place_cmp };

    ghost total = { place_total };

    ghost matches_partial_cmp = { λ a b. refl };

    ghost matches_eq = { λ a b. refl };

    fn cmp(&self, other: &ChangePlace) -> Ordering {
        let own_key = self.key.as_slice();
        place_order(self.table, own_key, other.table, other.key.as_slice())
    }
}

impl ChangePlace {
    /// The place of a key in a table.
    pub(crate) fn new(table: Table, key: KeyBuf) -> ChangePlace
        ensures { result ≡ (table.0, key.items) }
    {
        ChangePlace { table, key }
    }
}

// The same key again.
pub(crate) fn copied_key(key: &KeyBuf) -> KeyBuf
    ensures { result.items ≡ key.now.items }
{
    let mut copied = KeyBuf::new();
    // There is room for every key, so it succeeds.
    let _ = copied.try_extend_from_slice(key.as_slice());
    copied
}
