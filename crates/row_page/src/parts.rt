//! Edits of a part of a page.
ghost use Rattle.std.specs.Prelude.{◌≡◌, ◌+◌, ◌*◌, ◌<◌, ◌≤◌, ◌^◌, ℕ};
ghost use Rattle.std.specs.Prelude.{List, length, Bool, true, false};
ghost use Rattle.byteorder.specs.Endian.{big_bytes};
ghost use Rattle.mdb_bytes.specs.Fields.{number_at, spelled};
ghost use Rattle.mdb_bytes.specs.LogicalPages.{header_fields};
ghost use Rattle.row_page.specs.Page.{inserted_at, closed, written_at, joined_cells, slots};
ghost use Rattle.row_page.specs.Entries.{cell_of, cell_len, PageEntry, KeepsEntry};

use byteorder::{BigEndian, ByteOrder};
use mdb_bytes::u16_at;
use mdb_model::limits::{PAGE_BYTES, PAGE_ROOM};

/// Bytes of the header of a page.
pub const HEAD_BYTES: usize = PAGE_BYTES - PAGE_ROOM;

/// Writes the cell of a row.
#[tactic(auto, unfolding(crate::specs::Entries::cell_of))]
pub fn write_row(into: &mut [u8], key: &[u8], rest: &[u8])
    requires short { (length key.now < 2 ^ 16) × (length rest.now < 2 ^ 16) }
    requires room { length into.old ≡ cell_len true (record { key = key.now; rest = rest.now }) }
    ensures { into.new ≡ cell_of true (record { key = key.now; rest = rest.now }) }
{
    let (key_len, back) = into.split_at_mut(2);
    let (rest_len, back) = back.split_at_mut(2);
    let (zeros, back) = back.split_at_mut(2);
    let (body, tail) = back.split_at_mut(key.len());
    BigEndian::write_u16(key_len, key.len() as u16);
    BigEndian::write_u16(rest_len, rest.len() as u16);
    zeros.fill(0);
    body.copy_from_slice(key);
    tail.copy_from_slice(rest);
}

/// Writes the cell of a separator and its child.
#[tactic(auto, unfolding(crate::specs::Entries::cell_of))]
pub fn write_child(into: &mut [u8], key: &[u8], rest: &[u8])
    requires short { length key.now < 2 ^ 16 }
    requires room { length into.old ≡ cell_len false (record { key = key.now; rest = rest.now }) }
    ensures { into.new ≡ cell_of false (record { key = key.now; rest = rest.now }) }
{
    let (key_len, back) = into.split_at_mut(2);
    let (child, body) = back.split_at_mut(rest.len());
    BigEndian::write_u16(key_len, key.len() as u16);
    child.copy_from_slice(rest);
    body.copy_from_slice(key);
}

/// Writes the cell of an entry.
pub fn write_cell(into: &mut [u8], leaf: bool, key: &[u8], rest: &[u8])
    requires short { (length key.now < 2 ^ 16) × (length rest.now < 2 ^ 16) }
    requires room { length into.old ≡ cell_len leaf (record { key = key.now; rest = rest.now }) }
    ensures { into.new ≡ cell_of leaf (record { key = key.now; rest = rest.now }) }
{
    if leaf {
        write_row(into, key, rest);
    } else {
        write_child(into, key, rest);
    }
}

/// Puts a cell in at a place; as many bytes fall off at the end.
pub fn open_cell(part: &mut [u8], at: usize, size: usize, leaf: bool, key: &[u8], rest: &[u8])
    requires short { (length key.now < 2 ^ 16) × (length rest.now < 2 ^ 16) }
    requires size { size ≡ cell_len leaf (record { key = key.now; rest = rest.now }) }
    requires room { at + size ≤ length part.old }
    ensures { part.new
        ≡ inserted_at at (cell_of leaf (record { key = key.now; rest = rest.now })) part.old }
{
    let end = part.len() - size;
    part.copy_within(at..end, at + size);
    write_cell(&mut part[at..at + size], leaf, key, rest);
}

/// Takes n bytes out at a place, and fills the end with zeros.
pub fn close_gap(part: &mut [u8], at: usize, size: usize)
    requires { at + size ≤ length part.old }
    ensures { part.new ≡ closed at size part.old }
{
    let end = part.len();
    part.copy_within(at + size..end, at);
    part[end - size..].fill(0);
}

/// Writes a number of two bytes at a place.
pub fn write_two(part: &mut [u8], at: usize, number: u16)
    requires { at + 2 ≤ length part.old }
    ensures { part.new ≡ written_at at (big_bytes 2 number) part.old }
{
    BigEndian::write_u16(&mut part[at..at + 2], number);
}

/// Writes a number of four bytes at a place.
pub fn write_four(part: &mut [u8], at: usize, number: u32)
    requires { at + 4 ≤ length part.old }
    ensures { part.new ≡ written_at at (big_bytes 4 number) part.old }
{
    BigEndian::write_u32(&mut part[at..at + 4], number);
}

/// Writes the header of a page without entries.
#[tactic(auto, unfolding(mdb_bytes::specs::Fields::spelled))]
pub fn write_head(head: &mut [u8], kind: u8, level: u8, table: u16, own: u32)
    requires { length head.old ≡ 64 }
    ensures { head.new ≡ spelled (header_fields kind level table own 0 0 0) }
{
    let (marks, back) = head.split_at_mut(2);
    let (table_part, back) = back.split_at_mut(2);
    let (own_part, zeros) = back.split_at_mut(4);
    marks[0] = kind;
    marks[1] = level;
    BigEndian::write_u16(table_part, table);
    BigEndian::write_u32(own_part, own);
    zeros.fill(0);
}

/// Makes the slots of cells that begin at one place those of the same cells at another place. Each
/// number of two bytes moves by as much, and wraps.
pub fn move_slots(part: &mut [u8], from: usize, to: usize)
    requires { (from < 2 ^ 16) × (to < 2 ^ 16) }
    ensures { (cs : List (List ℕ)) → part.old ≡ slots from cs
        → from + length (joined_cells cs) < 2 ^ 16
        → to + length (joined_cells cs) < 2 ^ 16 → part.new ≡ slots to cs }
{
    let by = (to as u16).wrapping_sub(from as u16);
    let count = part.len() / 2;
    for k in 0..count {
        let place = 2 * (count - k - 1);
        let old = u16_at(part, place);
        write_two(part, place, old.wrapping_add(by));
    }
}
