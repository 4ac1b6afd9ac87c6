//! The parts of a record, and the bytes that they are written as.
ghost use Rattle.std.specs.Prelude.{◌≡◌, ◌+◌, ◌≤◌, length, map, nat_lt, replicate};
ghost use Rattle.std.specs.List.{list_all};
ghost use Rattle.mdb_bytes.specs.Fields.{field_bytes, field_fits, fields_fit, number_at, spelled};
ghost use Rattle.mdb_bytes.specs.Parts.{field_of, field_len, fields_len};

use crate::numbers::u64_at;
use byteorder::{BigEndian, ByteOrder};
use mdb_model::limits::LAYOUT_NUMBER_END;
use mdb_model::name::Name;
/// A part of a record: a number of one, two, four or eight bytes, bytes that are zero, or eight
/// letters, as the number that their bytes are.
#[derive(Clone, Copy)]
pub(crate) enum Part {
    Byte(u8),
    Two(u16),
    Four(u32),
    Eight(u64),
    Zeros(usize),
    Letters(u64),
}

impl Part {
    fn len(self) -> usize
        ensures { result ≡ field_len (field_of self) }
    {
        match self {
            Part::Byte(_) => 1,
            Part::Two(_) => 2,
            Part::Four(_) => 4,
            Part::Eight(_) | Part::Letters(_) => 8,
            Part::Zeros(count) => count,
        }
    }

    // Whether it has room for its number.
    fn fits(self) -> bool
        ensures { result ≡ field_fits (field_of self) }
    {
        match self {
            Part::Byte(_number) => true,
            Part::Two(_number) => true,
            Part::Four(_number) => true,
            Part::Eight(number) => number < LAYOUT_NUMBER_END,
            Part::Zeros(_) => true,
            Part::Letters(_letters) => true,
        }
    }

    fn write(self, into: &mut [u8])
        requires { length into.old ≡ field_len (field_of self) }
        ensures { into.new ≡ field_bytes (field_of self) }
    {
        match self {
            Part::Byte(number) => into[0] = number,
            Part::Two(number) => BigEndian::write_u16(into, number),
            Part::Four(number) => BigEndian::write_u32(into, number),
            Part::Eight(number) => BigEndian::write_u64(into, number),
            Part::Zeros(_) => write_zeros(into),
            Part::Letters(letters) => BigEndian::write_u64(into, letters),
        }
    }
}

/// Zeros in place of what stood there.
pub(crate) fn write_zeros(into: &mut [u8])
    ensures { into.new ≡ replicate (length into.old) 0 }
{
    into.fill(0);
}

/// Writes the parts one after the other.
#[tactic(auto, unfolding(crate::specs::Fields::spelled))]
pub(crate) fn write_parts(into: &mut [u8], parts: &[Part])
    requires { length into.old ≡ fields_len (map field_of parts.now) }
    ensures { into.new ≡ spelled (map field_of parts.now) }
{
    match parts {
        [] => {}
        [first, rest @ ..] => {
            let (front, back) = into.split_at_mut(first.len());
            first.write(front);
            write_parts(back, rest);
        }
    }
}

/// Whether bytes have room as a text, which they have by their type.
pub(crate) fn bytes_fit(_bytes: &[u8]) -> bool
    ensures { result ≡ list_all (λ b. nat_lt b 256) _bytes.now }
{
    true
}

/// Whether each part has room for its number.
pub(crate) fn parts_fit(parts: &[Part]) -> bool
    ensures { result ≡ fields_fit (map field_of parts.now) }
{
    match parts {
        [] => true,
        [first, rest @ ..] => first.fits() && parts_fit(rest),
    }
}

/// The name of a database, its birth first.
pub(crate) fn name_at(bytes: &[u8], at: usize) -> Name
    requires { at + 16 ≤ length bytes.now }
    ensures { result ≡ record {
      birth = number_at 8 at bytes.now;
      generation = number_at 8 (at
          + 8) bytes.now;
    } }
{
    Name {
        birth: u64_at(bytes, at),
        generation: u64_at(bytes, at + 8),
    }
}
