//! The places of one change in a group.
ghost use Rattle.std.specs.Prelude.{◌≡◌, ◌+◌, ◌<◌, ◌≤◌, ◌^◌, length, IfSome};
ghost use Rattle.mdb_model.specs.Sessions.{change_bytes};
ghost use Rattle.mdb_bytes.specs.Fields.{Spells};
ghost use Rattle.mdb_bytes.specs.Groups.{Group, group_format};
ghost use Rattle.mdb_bytes.specs.LoggedChanges.{change_of};
ghost use Rattle.mdb_bytes.specs.ChangeEntries.{entry_in, FindsChange, Skips};

use crate::changes::{LoggedChange, first_change};

/// A change in the bytes of a group: its table, its kind (1 a row that is set, 2 a key whose row
/// goes), and the first place and the length of each byte string. The value of a key that goes is
/// empty.
#[derive(Clone, Copy, Debug, PartialEq, Eq)]
pub struct ChangeEntry {
    pub table: u16,
    pub kind: u8,
    pub key: (usize, usize),
    pub value: (usize, usize),
}

// What stands after the first n changes.
fn skip(bytes: &[u8], count: usize) -> Option<&[u8]>
    ensures { Skips bytes.now count result }
{
    let mut rest = bytes;
    for _ in 0..count {
        let Some((_, behind)) = first_change(rest) else {
            return None;
        };
        rest = behind;
    }
    Some(rest)
}

fn entry_at(place: usize, change: LoggedChange<'_>) -> ChangeEntry
    requires { place + change_bytes (change_of change) < 2 ^ 64 }
    ensures { result ≡ entry_in place (change_of change.entry) }
{
    match change {
        LoggedChange::Put(table, key, value) => ChangeEntry {
            table: table.0,
            kind: 1,
            key: (place + 7, key.len()),
            value: (place + 7 + key.len(), value.len()),
        },
        LoggedChange::Del(table, key) => ChangeEntry {
            table: table.0,
            kind: 2,
            key: (place + 7, key.len()),
            value: (place + 7 + key.len(), 0),
        },
    }
}

/// The change of a group with this number, counted from 0. Each call goes over the changes in
/// front.
pub fn group_entry(bytes: &[u8], index: usize) -> Option<ChangeEntry>
    ensures entry { (v : Group) → Spells group_format v bytes.now
        → FindsChange bytes.now v.changes index result }
    ensures within { IfSome result (λ e. (e.key.0 + e.key.1 ≤ length bytes.now)
        × (e.value.0 + e.value.1 ≤ length bytes.now)) }
{
    if bytes.len() < 33 {
        return None;
    }
    let body = bytes.split_at(33).1;
    let Some(rest) = skip(body, index) else {
        return None;
    };
    let Some((change, _)) = first_change(rest) else {
        return None;
    };
    Some(entry_at(bytes.len() - rest.len(), change))
}
