//! Writes a group into its room.
ghost use Rattle.std.specs.Prelude.{◌≡◌, ◌+◌, ◌<◌, ◌≤◌, ◌^◌, [], ◌∷◌, ◌++◌, length, IsTrue};
ghost use Rattle.byteorder.specs.Endian.{big_bytes};
ghost use Rattle.mdb_model.specs.Sessions.{change_bytes, group_bytes};
ghost use Rattle.mdb_bytes.specs.Fields.{Byte, Two, Text, Spells, spelled, fields_fit, number_limit};
ghost use Rattle.mdb_bytes.specs.Groups.{group_format, group_fits, change_fields, change_fits, longest_group};
ghost use Rattle.mdb_bytes.specs.GroupHeads.{group_head_fields};

use crate::group_buf::GroupBuf;
use byteorder::{BigEndian, ByteOrder};
use mdb_model::change::Change;
use mdb_model::limits::OPEN_GATE;
use mdb_model::name::{Name, Table};

fn put_two(into: &mut GroupBuf, number: u16)
    requires { length into.old + 2 ≤ longest_group }
    ensures { into.new ≡ into.old ++ big_bytes 2 number }
{
    let mut bytes = [0u8; 2];
    BigEndian::write_u16(&mut bytes, number);
    into.append(&bytes);
}

fn put_four(into: &mut GroupBuf, number: u32)
    requires { length into.old + 4 ≤ longest_group }
    ensures { into.new ≡ into.old ++ big_bytes 4 number }
{
    let mut bytes = [0u8; 4];
    BigEndian::write_u32(&mut bytes, number);
    into.append(&bytes);
}

fn put_eight(into: &mut GroupBuf, number: u64)
    requires { length into.old + 8 ≤ longest_group }
    ensures { into.new ≡ into.old ++ big_bytes 8 number }
{
    let mut bytes = [0u8; 8];
    BigEndian::write_u64(&mut bytes, number);
    into.append(&bytes);
}

/// The head of a group in place of what stood there.
pub fn begin_group(into: &mut GroupBuf, length: u32, name: Name, number: u64, changes: u32)
    ensures { into.new ≡ spelled (group_head_fields
        (record { length = length; name = name; number = number; changes = changes })) }
{
    into.clear();
    into.append(&[OPEN_GATE]);
    put_four(into, length);
    put_eight(into, name.birth);
    put_eight(into, name.generation);
    put_eight(into, number);
    put_four(into, changes);
}

// A change by its parts.
fn put_parts(into: &mut GroupBuf, table: Table, kind: u8, key: &[u8], value: &[u8])
    requires lengths { (length key.now < 2 ^ 16) × (length value.now < 2 ^ 16) }
    requires room { length into.old + (7 + length key.now + length value.now) ≤ longest_group }
    ensures bytes { into.new ≡ into.old ++ spelled (Two table.0 ∷ Byte kind ∷ Two (length key.now)
        ∷ Two (length value.now) ∷ Text key.now ∷ Text value.now ∷ []) }
    ensures fit { IsTrue (fields_fit (Two table.0 ∷ Byte kind ∷ Two (length key.now)
        ∷ Two (length value.now) ∷ Text key.now ∷ Text value.now ∷ [])) }
{
    put_two(into, table.0);
    into.append(&[kind]);
    put_two(into, key.len() as u16);
    put_two(into, value.len() as u16);
    into.append(key);
    into.append(value);
}

/// One more change after what stands there.
pub fn put_change(into: &mut GroupBuf, change: &Change)
    requires fits { IsTrue (change_fits change.now) }
    requires room { length into.old + change_bytes change.now ≤ longest_group }
    ensures bytes { into.new ≡ into.old ++ spelled (change_fields change.now) }
    ensures fit { IsTrue (fields_fit (change_fields change.now)) }
{
    match change {
        Change::Put(table, key, value) => put_parts(into, *table, 1, key.bytes(), value.bytes()),
        Change::Del(table, key) => put_parts(into, *table, 2, key.bytes(), &[]),
    }
}

// The bytes that a change takes.
fn change_len(change: &Change) -> usize
    requires { change_bytes change.now ≤ longest_group }
    ensures { result ≡ change_bytes change.now }
{
    match change {
        Change::Put(_, key, value) => 7 + key.bytes().len() + value.bytes().len(),
        Change::Del(_, key) => 7 + key.bytes().len(),
    }
}

// The bytes that a group of these changes takes.
fn len_of(changes: &[Change]) -> usize
    requires { group_bytes changes.now ≤ longest_group }
    ensures { result ≡ group_bytes changes.now }
{
    let mut length: usize = 33;
    for change in changes {
        length += change_len(change);
    }
    length
}

/// The group of these changes in place of what stood there.
pub fn encode_group(into: &mut GroupBuf, name: Name, number: u64, changes: &[Change])
    requires fits { IsTrue (group_fits (record
        { name = name; number = number; changes = changes.now })) }
    requires numbers { (name.birth < number_limit) × (name.generation < number_limit)
        × (number < number_limit) }
    ensures { Spells group_format (record { name = name; number = number; changes = changes.now })
        into.new }
{
    let length = len_of(changes) as u32;
    begin_group(into, length, name, number, changes.len() as u32);
    for change in changes {
        put_change(into, change);
    }
}
