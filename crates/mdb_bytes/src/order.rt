//! Whether bytes are changes that ascend by table and key.
ghost use Rattle.std.specs.Prelude.{◌≡◌, ◌↔◌, IsTrue, None};
ghost use Rattle.std.specs.Ordering.{is_lt};
ghost use Rattle.mdb_model.specs.Tables.{place_cmp};
ghost use Rattle.mdb_bytes.specs.ChangeOrder.{place_at, last_place, place_follows, IsChangeRun};

use crate::changes::{LoggedPlace, first_change};
use std::cmp::Ordering;

fn is_before(place: LoggedPlace<'_>, other: LoggedPlace<'_>) -> bool
    ensures { result ≡ is_lt (place_cmp (place_at place.entry) (place_at other.entry)) }
{
    if place.table.0 != other.table.0 {
        return place.table.0 < other.table.0;
    }
    match place.key.cmp(&other.key) {
        Ordering::Less => true,
        Ordering::Equal | Ordering::Greater => false,
    }
}

fn may_follow(last: Option<LoggedPlace<'_>>, place: LoggedPlace<'_>) -> bool
    ensures { result ≡ place_follows (last_place last.entry) (place_at place.entry) }
{
    match last {
        None => true,
        Some(last) => is_before(last, place),
    }
}

/// Whether the bytes are so many changes, which ascend.
pub fn are_changes(bytes: &[u8], count: usize) -> bool
    ensures { IsTrue result ↔ IsChangeRun None count bytes.now }
{
    let mut rest = bytes;
    let mut last: Option<LoggedPlace<'_>> = None;
    for _ in 0..count {
        let Some((change, behind)) = first_change(rest) else {
            return false;
        };
        let place = change.place();
        if !may_follow(last, place) {
            return false;
        }
        last = Some(place);
        rest = behind;
    }
    rest.is_empty()
}
