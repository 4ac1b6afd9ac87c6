//! Records of fixed fields: what each one answers for itself, and the exact codec over that.
ghost use Rattle.std.specs.Prelude.{◌≡◌, ◌≤◌, ◌+◌, ◌-◌, ◌*◌, ◌++◌, ℕ, length, drop, map};
ghost use Rattle.std.specs.List.{list_all};
ghost use Rattle.mdb_bytes.specs.Fields.{Format, Decodes, ReadsBack, fields_fit, spelled, read_run};
ghost use Rattle.mdb_bytes.specs.Parts.{HasLength, field_of, fields_len, table_fields};

use crate::numbers::u32_at;
use crate::parts::{Part, parts_fit, write_parts, write_zeros};
use arrayvec::ArrayVec;

pub(crate) trait Record: Sized + Drop {
    /// How it is spelled.
    ghost format: { Format Self };

    /// How many bytes it takes.
    ghost size: { ℕ };

    fn len() -> usize
        ensures { result ≡ size };

    /// What stands at the places of its fields, whatever it is.
    fn read(bytes: &[u8]) -> Self
        requires { size ≤ length bytes.now }
        ensures { result ≡ format.reads bytes.now };

    /// Whether it keeps the limits that its fields alone do not.
    fn fits(&self) -> bool
        ensures { result ≡ format.fits self.now };

    /// Whether its fields have room for their numbers.
    fn has_room(&self) -> bool
        ensures { result ≡ fields_fit (format.fields self.now) };

    fn write(&self, into: &mut [u8])
        requires { length into.old ≡ size }
        ensures { into.new ≡ spelled (format.fields self.now) };
}

/// The record of N bytes that the bytes spell.
pub(crate) fn decode<R: Record, const N: usize>(bytes: &[u8]) -> Option<R>
    requires size { R.size ≡ N }
    requires again { ReadsBack R.format }
    requires long { HasLength R.format N }
    ensures { Decodes R.format bytes.now result }
{
    if bytes.len() != N {
        return None;
    }
    let value = R::read(bytes);
    if !value.fits() {
        return None;
    }
    if !value.has_room() {
        return None;
    }
    let mut again = [0u8; N];
    value.write(&mut again);
    if bytes == again.as_slice() {
        Some(value)
    } else {
        None
    }
}

/// Writes the rows one after the other, and zeros after them.
pub(crate) fn write_table<R: Record>(into: &mut [u8], rows: &[R])
    requires { R.size * length rows.now ≤ length into.old }
    ensures { into.new ≡ spelled (table_fields R.format.fields R.size (length into.old) rows.now) }
{
    match rows {
        [] => write_zeros(into),
        [first, rest @ ..] => {
            let (front, back) = into.split_at_mut(R::len());
            first.write(front);
            write_table(back, rest);
        }
    }
}

/// Writes some parts, and a table from byte `at` on.
pub(crate) fn write_section<R: Record>(into: &mut [u8], parts: &[Part], at: usize, rows: &[R])
    requires place { fields_len (map field_of parts.now) ≡ at }
    requires room { at + R.size * length rows.now ≤ length into.old }
    ensures { into.new ≡ spelled (map field_of parts.now
        ++ table_fields R.format.fields R.size (length into.old - at) rows.now) }
{
    let (front, back) = into.split_at_mut(at);
    write_parts(front, parts);
    write_table(back, rows);
}

/// Whether the fields of some parts and of the rows after them have room for their numbers.
pub(crate) fn section_has_room<R: Record>(parts: &[Part], rows: &[R]) -> bool
    ensures { (room : ℕ) → result ≡ fields_fit (map field_of parts.now
        ++ table_fields R.format.fields R.size room rows.now) }
{
    parts_fit(parts) && rows_have_room(rows)
}

/// The rows that stand one after the other.
pub(crate) fn read_table<R: Record + Default, const N: usize>(
    bytes: &[u8],
    count: usize,
) -> ArrayVec<R, N>
    requires room { count ≤ N }
    requires long { R.size * count ≤ length bytes.now }
    ensures { result.items ≡ read_run R.format.reads (λ v. R.size) count bytes.now }
{
    let mut rows = ArrayVec::new();
    let mut rest = bytes;
    for _ in 0..count {
        rows.push(R::read(rest));
        rest = rest.split_at(R::len()).1;
    }
    rows
}

/// The same into rows that are there.
pub(crate) fn read_rows<R: Record>(bytes: &[u8], rows: &mut [R])
    requires { R.size * length rows.old ≤ length bytes.now }
    ensures { rows.new ≡ read_run R.format.reads (λ v. R.size) (length rows.old) bytes.now }
{
    let mut rest = bytes;
    for i in 0..rows.len() {
        let row = R::read(rest);
        rows[i] = row;
        rest = rest.split_at(R::len()).1;
    }
}

/// Whether each row fits.
pub(crate) fn rows_fit<R: Record>(rows: &[R]) -> bool
    ensures { result ≡ list_all R.format.fits rows.now }
{
    rows.iter().all(|row| row.fits())
}

/// Whether the fields of each row have room for their numbers.
pub(crate) fn rows_have_room<R: Record>(rows: &[R]) -> bool
    ensures { result ≡ list_all (λ row. fields_fit (R.format.fields row)) rows.now }
{
    rows.iter().all(|row| row.has_room())
}

/// The bytes from a place on.
pub(crate) fn behind(bytes: &[u8], at: usize) -> &[u8]
    requires { at ≤ length bytes.now }
    ensures rest { result.now ≡ drop at bytes.now }
    ensures len { length result.now + at ≡ length bytes.now }
{
    bytes.split_at(at).1
}

impl Record for u32 {
    ghost use Rattle.mdb_bytes.specs.Parts.{word_format};

    ghost format = { word_format };

    ghost size = { 4 };

    fn len() -> usize {
        4
    }

    fn read(bytes: &[u8]) -> Self {
        u32_at(bytes, 0)
    }

    fn fits(&self) -> bool {
        true
    }

    fn has_room(&self) -> bool {
        parts_fit(&[Part::Four(*self)])
    }

    fn write(&self, into: &mut [u8]) {
        write_parts(into, &[Part::Four(*self)]);
    }
}

macro_rules! parts_of {
    ($v:ident; [$($done:tt)*];) => { [$($done)*] };
    ($v:ident; [$($done:tt)*]; $at:literal letters ($number:expr), $($rest:tt)*) => {
        parts_of!($v; [$($done)* Part::Letters($number),]; $($rest)*)
    };
    ($v:ident; [$($done:tt)*]; $at:literal zeros ($count:literal), $($rest:tt)*) => {
        parts_of!($v; [$($done)* Part::Zeros($count),]; $($rest)*)
    };
    ($v:ident; [$($done:tt)*]; $at:literal byte ($f:ident), $($rest:tt)*) => {
        parts_of!($v; [$($done)* Part::Byte($v.$f),]; $($rest)*)
    };
    ($v:ident; [$($done:tt)*]; $at:literal four ($f:ident), $($rest:tt)*) => {
        parts_of!($v; [$($done)* Part::Four($v.$f),]; $($rest)*)
    };
    ($v:ident; [$($done:tt)*]; $at:literal eight ($f:ident), $($rest:tt)*) => {
        parts_of!($v; [$($done)* Part::Eight($v.$f),]; $($rest)*)
    };
    ($v:ident; [$($done:tt)*]; $at:literal coded ($f:ident, $number_of:ident, $of_number:ident), $($rest:tt)*) => {
        parts_of!($v; [$($done)* Part::Four($number_of($v.$f)),]; $($rest)*)
    };
    ($v:ident; [$($done:tt)*]; $at:literal code ($f:ident: $kind:ident), $($rest:tt)*) => {
        parts_of!($v; [$($done)* Part::Four($v.$f.number()),]; $($rest)*)
    };
    ($v:ident; [$($done:tt)*]; $at:literal fixed ($number:literal), $($rest:tt)*) => {
        parts_of!($v; [$($done)* Part::Four($number),]; $($rest)*)
    };
    ($v:ident; [$($done:tt)*]; $at:literal part ($f:ident: $reader:ident), $($rest:tt)*) => {
        parts_of!($v; [$($done)*]; $($rest)*)
    };
    ($v:ident; [$($done:tt)*]; $at:literal count ($f:ident), $($rest:tt)*) => {
        parts_of!($v; [$($done)* Part::Four($v.$f.len() as u32),]; $($rest)*)
    };
    ($v:ident; [$($done:tt)*]; $at:literal table ($f:ident, $count:literal, $most:literal), $($rest:tt)*) => {
        parts_of!($v; [$($done)*]; $($rest)*)
    };
    ($v:ident; [$($done:tt)*]; $at:literal name ($f:ident), $($rest:tt)*) => {
        parts_of!($v; [$($done)* Part::Eight($v.$f.birth), Part::Eight($v.$f.generation),]; $($rest)*)
    };
}

macro_rules! read_parts {
    ($b:ident; $name:ident; {$($done:tt)*};) => { $name { $($done)* } };
    ($b:ident; $name:ident; {$($done:tt)*}; $at:literal letters ($number:expr), $($rest:tt)*) => {
        read_parts!($b; $name; {$($done)*}; $($rest)*)
    };
    ($b:ident; $name:ident; {$($done:tt)*}; $at:literal zeros ($count:literal), $($rest:tt)*) => {
        read_parts!($b; $name; {$($done)*}; $($rest)*)
    };
    ($b:ident; $name:ident; {$($done:tt)*}; $at:literal byte ($f:ident), $($rest:tt)*) => {
        read_parts!($b; $name; {$($done)* $f: byte_at($b, $at),}; $($rest)*)
    };
    ($b:ident; $name:ident; {$($done:tt)*}; $at:literal four ($f:ident), $($rest:tt)*) => {
        read_parts!($b; $name; {$($done)* $f: u32_at($b, $at),}; $($rest)*)
    };
    ($b:ident; $name:ident; {$($done:tt)*}; $at:literal eight ($f:ident), $($rest:tt)*) => {
        read_parts!($b; $name; {$($done)* $f: u64_at($b, $at),}; $($rest)*)
    };
    ($b:ident; $name:ident; {$($done:tt)*}; $at:literal coded ($f:ident, $number_of:ident, $of_number:ident), $($rest:tt)*) => {
        read_parts!($b; $name; {$($done)* $f: $of_number(u32_at($b, $at)),}; $($rest)*)
    };
    ($b:ident; $name:ident; {$($done:tt)*}; $at:literal code ($f:ident: $kind:ident), $($rest:tt)*) => {
        read_parts!($b; $name; {$($done)* $f: $kind::of_number(u32_at($b, $at)),}; $($rest)*)
    };
    ($b:ident; $name:ident; {$($done:tt)*}; $at:literal fixed ($number:literal), $($rest:tt)*) => {
        read_parts!($b; $name; {$($done)*}; $($rest)*)
    };
    ($b:ident; $name:ident; {$($done:tt)*}; $at:literal part ($f:ident: $reader:ident), $($rest:tt)*) => {
        read_parts!($b; $name; {$($done)* $f: $reader($b, $at),}; $($rest)*)
    };
    ($b:ident; $name:ident; {$($done:tt)*}; $at:literal count ($f:ident), $($rest:tt)*) => {
        read_parts!($b; $name; {$($done)*}; $($rest)*)
    };
    ($b:ident; $name:ident; {$($done:tt)*}; $at:literal table ($f:ident, $count:literal, $most:literal), $($rest:tt)*) => {
        read_parts!($b; $name; {$($done)* $f: read_table(behind($b, $at), u32_at($b, $count).min($most) as usize),}; $($rest)*)
    };
    ($b:ident; $name:ident; {$($done:tt)*}; $at:literal name ($f:ident), $($rest:tt)*) => {
        read_parts!($b; $name; {$($done)* $f: name_at($b, $at),}; $($rest)*)
    };
}

// The bodies of a record from the table of its fields: the place of each, and what stands there.
// The rows of a `table` stand from its place on; the place where their `count` stands and the most
// that there may be are given with it. A record with tables has a section in front of each of them.
macro_rules! record {
    (front $v:ident; $name:ident; {$($front:tt)*} $($more:tt)*) => { parts_of!($v; []; $($front)*) };
    (middle $v:ident; $name:ident; {$($front:tt)*} {$($middle:tt)*}) => { parts_of!($v; []; $($middle)*) };
    (read $b:ident; $name:ident; {$($front:tt)*} {$($middle:tt)*}) => {
        read_parts!($b; $name; {}; $($front)* $($middle)*)
    };
    (read $b:ident; $name:ident; {$($front:tt)*}) => { read_parts!($b; $name; {}; $($front)*) };
    (parts $v:ident; $name:ident; $($rows:tt)*) => { parts_of!($v; []; $($rows)*) };
    (read $b:ident; $name:ident; $($rows:tt)*) => { read_parts!($b; $name; {}; $($rows)*) };
}

pub(crate) use parts_of;
pub(crate) use read_parts;
pub(crate) use record;
