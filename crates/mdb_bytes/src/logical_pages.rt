//! The logical pages of fixed fields.
ghost use Rattle.std.specs.Prelude.{◌≡◌, ◌+◌, ◌<◌, ◌≤◌, ◌^◌, map, min, length, drop};
ghost use Rattle.std.specs.Prelude.{slice_get, slice_set, Some};
ghost use Rattle.mdb_bytes.specs.Fields.{Spells, Decodes, number_at, read_run};
ghost use Rattle.mdb_bytes.specs.Parts.{field_of, page_len, KeepsLimits, ascend_from};
ghost use Rattle.mdb_bytes.specs.LogicalPages.{header_fields, catalogue_entry_fields, catalogue_entry_reads, catalogue_format, open_entry_fields, open_entry_reads, open_list_front, open_list_format};

use crate::numbers::{byte_at, u16_at, u32_at, u64_at};
use crate::parts::{Part, parts_fit, write_parts};
use crate::record::{
    Record, behind, decode, parts_of, read_parts, read_rows, read_table, record, rows_fit,
    section_has_room, write_section,
};
use arrayvec::ArrayVec;

/// What is known of one table.
#[derive(Clone, Copy, Debug, Default, PartialEq, Eq)]
pub struct CatalogueEntry {
    /// The root page of its rows, 0 for no row.
    pub root: u32,
    /// The number of its pages.
    pub pages: u32,
    /// The bytes that its rows cost.
    pub cost: u64,
}

/// Page 0: the tables 1 to 500.
#[derive(Clone, Copy)]
pub struct Catalogue {
    pub entries: [CatalogueEntry; 500],
}

/// The undo file of a transaction.
#[derive(Clone, Copy, Debug, Default, PartialEq, Eq)]
pub struct OpenEntry {
    /// 1 to 64.
    pub session: u8,
    /// Its last page.
    pub last_page: u32,
    /// How many entries it has, at least 1.
    pub count: u32,
}

/// Page 1: the transactions with changes, by ascending session.
#[derive(Drop)]
pub struct OpenList {
    pub entries: ArrayVec<OpenEntry, 64>,
}

macro_rules! catalogue_entry {
    ($body:ident $over:ident) => {
        record! { $body $over; CatalogueEntry;
            0 four (root),
            4 four (pages),
            8 eight (cost),
        }
    };
}

macro_rules! catalogue {
    ($body:ident $over:ident) => {
        record! { $body $over; Catalogue; { 64 part (entries: tables_at), } }
    };
}

macro_rules! open_entry {
    ($body:ident $over:ident) => {
        record! { $body $over; OpenEntry;
            0 byte (session),
            1 zeros (3),
            4 four (last_page),
            8 four (count),
        }
    };
}

macro_rules! open_list {
    ($body:ident $over:ident) => {
        record! { $body $over; OpenList; { 64 part (entries: sessions_at), } }
    };
}

// The header of a page of neither level, table nor next page.
fn header(kind: u8, number: u32, count: u16, used: u16) -> [Part; 8]
    ensures { map field_of result ≡ header_fields kind 0 0 number count used 0 }
{
    [
        Part::Byte(kind),
        Part::Byte(0),
        Part::Two(0),
        Part::Four(number),
        Part::Two(count),
        Part::Two(used),
        Part::Four(0),
        Part::Zeros(48),
    ]
}

fn table_parts(value: &CatalogueEntry) -> [Part; 3]
    ensures { map field_of result ≡ catalogue_entry_fields value.now }
{
    catalogue_entry!(parts value)
}

impl Record for CatalogueEntry {
    ghost use Rattle.mdb_bytes.specs.LogicalPages.{catalogue_entry_format};

    ghost format = { catalogue_entry_format };

    ghost size = { 16 };

    fn len() -> usize {
        16
    }

    fn read(bytes: &[u8]) -> Self {
        catalogue_entry!(read bytes)
    }

    fn fits(&self) -> bool {
        true
    }

    fn has_room(&self) -> bool {
        parts_fit(&table_parts(self))
    }

    fn write(&self, into: &mut [u8]) {
        write_parts(into, &table_parts(self));
    }
}

fn tables_at(bytes: &[u8], at: usize) -> [CatalogueEntry; 500]
    requires { at + 8000 ≤ length bytes.now }
    ensures { result ≡ read_run catalogue_entry_reads (λ e. 16) 500 (drop at bytes.now) }
{
    let mut entries = [CatalogueEntry::default(); 500];
    read_rows(behind(bytes, at), &mut entries);
    entries
}

impl Record for Catalogue {
    ghost use Rattle.mdb_bytes.specs.LogicalPages.{catalogue_format};

    ghost format = { catalogue_format };

    ghost size = { 8192 };

    fn len() -> usize {
        8192
    }

    fn read(bytes: &[u8]) -> Self {
        catalogue!(read bytes)
    }

    fn fits(&self) -> bool {
        self.entries.len() == 500
    }

    fn has_room(&self) -> bool {
        section_has_room(&header(4, 0, 500, 8000), &self.entries)
    }

    fn write(&self, into: &mut [u8]) {
        write_section(into, &header(4, 0, 500, 8000), 64, &self.entries);
    }
}

fn session_parts(value: &OpenEntry) -> [Part; 4]
    ensures { map field_of result ≡ open_entry_fields value.now }
{
    open_entry!(parts value)
}

impl Record for OpenEntry {
    ghost use Rattle.mdb_bytes.specs.LogicalPages.{open_entry_format};

    ghost format = { open_entry_format };

    ghost size = { 12 };

    fn len() -> usize {
        12
    }

    fn read(bytes: &[u8]) -> Self {
        open_entry!(read bytes)
    }

    fn fits(&self) -> bool {
        self.session >= 1 && self.session <= 64 && self.count >= 1
    }

    fn has_room(&self) -> bool {
        parts_fit(&session_parts(self))
    }

    fn write(&self, into: &mut [u8]) {
        write_parts(into, &session_parts(self));
    }
}

fn sessions_at(bytes: &[u8], at: usize) -> ArrayVec<OpenEntry, 64>
    requires { (10 ≤ length bytes.now) × (at + 768 ≤ length bytes.now) }
    ensures { result.items ≡ read_run open_entry_reads (λ e. 12) (min (number_at 2 8 bytes.now) 64)
        (drop at bytes.now) }
{
    read_table(behind(bytes, at), u16_at(bytes, 8).min(64) as usize)
}

fn open_front(value: &OpenList) -> [Part; 8]
    ensures { map field_of result ≡ open_list_front value.now }
{
    let count = value.entries.len() as u16;
    header(5, 1, count, 12 * count)
}

fn sessions_ascend(after: u8, entries: &[OpenEntry]) -> bool
    ensures { result ≡ ascend_from after (map (λ e. e.session) entries.now) }
{
    match entries {
        [] => true,
        [first, rest @ ..] => after < first.session && sessions_ascend(first.session, rest),
    }
}

impl Record for OpenList {
    ghost use Rattle.mdb_bytes.specs.LogicalPages.{open_list_format};

    ghost format = { open_list_format };

    ghost size = { 8192 };

    fn len() -> usize {
        8192
    }

    fn read(bytes: &[u8]) -> Self {
        open_list!(read bytes)
    }

    fn fits(&self) -> bool {
        self.entries.len() <= 64
            && rows_fit(self.entries.as_slice())
            && sessions_ascend(0, self.entries.as_slice())
    }

    fn has_room(&self) -> bool {
        section_has_room(&open_front(self), self.entries.as_slice())
    }

    fn write(&self, into: &mut [u8]) {
        write_section(into, &open_front(self), 64, self.entries.as_slice());
    }
}

/// The page of the catalogue.
pub fn encode_catalogue(value: &Catalogue, into: &mut [u8])
    requires exact { length into.old ≡ page_len }
    requires keeps { KeepsLimits catalogue_format value.now }
    ensures { Spells catalogue_format value.now into.new }
{
    value.write(into);
}

/// The catalogue of such a page.
pub fn decode_catalogue(bytes: &[u8]) -> Option<Catalogue>
    ensures { Decodes catalogue_format bytes.now result }
{
    decode::<Catalogue, 8192>(bytes)
}

/// What a catalogue says of a table, by its place from 0. Of other bytes it tells what stands there.
pub fn catalogue_entry_at(bytes: &[u8; 8192], place: usize) -> CatalogueEntry
    requires { place < 500 }
    ensures { (v : Catalogue) → Spells catalogue_format v bytes.now
        → slice_get v.entries place ≡ Some result }
{
    CatalogueEntry::read(bytes.split_at(64 + 16 * place).1)
}

/// Sets what a catalogue says of a table, by its place from 0. Of other bytes the sixteen of that
/// place are changed alone.
pub fn set_catalogue_entry(bytes: &mut [u8; 8192], place: usize, entry: &CatalogueEntry)
    requires { place < 500 }
    ensures { (v : Catalogue) → Spells catalogue_format v bytes.old → entry.now.cost < 2 ^ 62
        → Spells catalogue_format (record { entries = slice_set v.entries place entry.now })
        bytes.new }
{
    let (_, rest) = bytes.split_at_mut(64 + 16 * place);
    let (at, _) = rest.split_at_mut(16);
    entry.write(at);
}

/// The page of the open list.
pub fn encode_open_list(value: &OpenList, into: &mut [u8])
    requires exact { length into.old ≡ page_len }
    requires keeps { KeepsLimits open_list_format value.now }
    ensures { Spells open_list_format value.now into.new }
{
    value.write(into);
}

/// The open list of such a page.
pub fn decode_open_list(bytes: &[u8]) -> Option<OpenList>
    ensures { Decodes open_list_format bytes.now result }
{
    decode::<OpenList, 8192>(bytes)
}
