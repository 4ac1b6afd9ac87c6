//! The pages of media that have fixed fields.
ghost use Rattle.std.specs.Prelude.{◌≡◌, ◌+◌, ◌≤◌, map, length, take, drop};
ghost use Rattle.mdb_bytes.specs.Fields.{Spells, Decodes, number_at};
ghost use Rattle.mdb_bytes.specs.Parts.{field_of, page_len, KeepsLimits};
ghost use Rattle.mdb_bytes.specs.SlotRecords.{slot_len};
ghost use Rattle.mdb_bytes.specs.MediumPages.{kind_number, backup_kind_of, header_kind_fits, medium_header_fields, medium_header_format, live_set_front, live_set_format};

use crate::numbers::{u32_at, u64_at};
use crate::parts::{Part, bytes_fit, name_at, parts_fit, write_parts, write_zeros};
use crate::record::{Record, behind, decode, parts_of, read_parts, record};
use mdb_model::name::Name;
use mdb_model::script::{BackupKind, PageKind};

/// The first page of a medium that holds a backup, without its gate.
#[derive(Clone, Copy, Debug, PartialEq, Eq)]
pub struct MediumHeader {
    /// The number of the layout, 1.
    pub format: u32,
    pub kind: BackupKind,
    /// The database.
    pub name: Name,
    /// The savepoint whose pages it has, 0 for the log.
    pub savepoint: u64,
    /// The savepoint from which on pages are changed, 0 but for changed pages.
    pub base: u64,
    /// The first commit; of pages the last one that they hold.
    pub first: u64,
    /// The last commit.
    pub last: u64,
    /// The blocks of the area that was saved.
    pub blocks: u32,
    /// The pages of the backup, this one included.
    pub pages: u32,
    /// The bytes of its groups, 0 but for the log.
    pub group_bytes: u64,
    /// Where in the log it ends, 0 but for the log.
    pub end_position: u64,
}

/// Which of 65,000 page numbers live, a bit for each.
#[derive(Clone, Copy)]
pub struct LiveSet {
    /// Its place among the pages of the set, from 0.
    pub index: u32,
    /// The blocks of the area.
    pub blocks: u32,
    /// The highest bit of a byte is that of the lowest number.
    pub bits: [u8; 8125],
}

// The bytes `MDBKMEDI`.
const HEADER_LETTERS: u64 = 0x4D44_424B_4D45_4449;

// The bytes `MDBKLIVE`.
const LIVE_LETTERS: u64 = 0x4D44_424B_4C49_5645;

macro_rules! medium_header {
    ($body:ident $over:ident) => {
        record! { $body $over; MediumHeader;
            0 letters (HEADER_LETTERS),
            8 four (format),
            12 coded (kind, number_of_kind, kind_of_number),
            16 name (name),
            32 eight (savepoint),
            40 eight (base),
            48 eight (first),
            56 eight (last),
            64 four (blocks),
            68 four (pages),
            72 eight (group_bytes),
            80 eight (end_position),
            88 zeros (8103),
        }
    };
}

macro_rules! live_set {
    ($body:ident $over:ident) => {
        record! { $body $over; LiveSet;
            {
                0 letters (LIVE_LETTERS),
                8 four (index),
                12 four (blocks),
                16 zeros (48),
                64 part (bits: bits_at),
            }
        }
    };
}

fn number_of_kind(kind: BackupKind) -> u32
    ensures { result ≡ kind_number kind }
{
    match kind {
        BackupKind::OfPages(PageKind::Complete) => 1,
        BackupKind::OfPages(PageKind::Incremental) => 2,
        BackupKind::OfLog => 3,
    }
}

fn kind_of_number(number: u32) -> BackupKind
    ensures { result ≡ backup_kind_of number }
{
    if number == 1 {
        return BackupKind::OfPages(PageKind::Complete);
    }
    if number == 2 {
        return BackupKind::OfPages(PageKind::Incremental);
    }
    BackupKind::OfLog
}

fn header_parts(value: &MediumHeader) -> [Part; 14]
    ensures { map field_of result ≡ medium_header_fields value.now }
{
    medium_header!(parts value)
}

fn kind_fits(kind: BackupKind, value: &MediumHeader) -> bool
    ensures { result ≡ header_kind_fits kind value.now }
{
    match kind {
        BackupKind::OfPages(PageKind::Complete) => {
            value.base == 0
                && value.first == value.last
                && value.group_bytes == 0
                && value.end_position == 0
        }
        BackupKind::OfPages(PageKind::Incremental) => {
            value.first == value.last && value.group_bytes == 0 && value.end_position == 0
        }
        BackupKind::OfLog => value.savepoint == 0 && value.base == 0,
    }
}

impl Record for MediumHeader {
    ghost use Rattle.mdb_bytes.specs.MediumPages.{medium_header_format};

    ghost format = { medium_header_format };

    ghost size = { 8191 };

    fn len() -> usize {
        8191
    }

    fn read(bytes: &[u8]) -> Self {
        medium_header!(read bytes)
    }

    fn fits(&self) -> bool {
        self.format == 1 && self.pages <= 131_072 && kind_fits(self.kind, self)
    }

    fn has_room(&self) -> bool {
        parts_fit(&header_parts(self))
    }

    fn write(&self, into: &mut [u8]) {
        write_parts(into, &header_parts(self));
    }
}

fn bits_at(bytes: &[u8], at: usize) -> [u8; 8125]
    requires { at + 8125 ≤ length bytes.now }
    ensures { result ≡ take 8125 (drop at bytes.now) }
{
    let mut bits = [0; 8125];
    bits.copy_from_slice(behind(bytes, at).split_at(8125).0);
    bits
}

fn live_front(value: &LiveSet) -> [Part; 4]
    ensures { map field_of result ≡ live_set_front value.now }
{
    live_set!(front value)
}

impl Record for LiveSet {
    ghost use Rattle.mdb_bytes.specs.MediumPages.{live_set_format};

    ghost format = { live_set_format };

    ghost size = { 8192 };

    fn len() -> usize {
        8192
    }

    fn read(bytes: &[u8]) -> Self {
        live_set!(read bytes)
    }

    fn fits(&self) -> bool {
        self.bits.len() == 8125
    }

    fn has_room(&self) -> bool {
        parts_fit(&live_front(self)) && bytes_fit(&self.bits)
    }

    fn write(&self, into: &mut [u8]) {
        let (front, rest) = into.split_at_mut(64);
        write_parts(front, &live_front(self));
        let (bits, end) = rest.split_at_mut(8125);
        bits.copy_from_slice(&self.bits);
        write_zeros(end);
    }
}

/// The first page of a medium without its gate.
pub fn encode_medium_header(value: &MediumHeader, into: &mut [u8])
    requires exact { length into.old ≡ slot_len }
    requires keeps { KeepsLimits medium_header_format value.now }
    ensures { Spells medium_header_format value.now into.new }
{
    value.write(into);
}

/// The header that stands there.
pub fn decode_medium_header(bytes: &[u8]) -> Option<MediumHeader>
    ensures { Decodes medium_header_format bytes.now result }
{
    decode::<MediumHeader, 8191>(bytes)
}

/// A page of a live set.
pub fn encode_live_set(value: &LiveSet, into: &mut [u8])
    requires exact { length into.old ≡ page_len }
    requires keeps { KeepsLimits live_set_format value.now }
    ensures { Spells live_set_format value.now into.new }
{
    value.write(into);
}

/// The part of a live set on such a page.
pub fn decode_live_set(bytes: &[u8]) -> Option<LiveSet>
    ensures { Decodes live_set_format bytes.now result }
{
    decode::<LiveSet, 8192>(bytes)
}
