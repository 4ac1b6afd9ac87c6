//! The pages that say on which block each logical page stands.
ghost use Rattle.std.specs.Prelude.{◌≡◌, ◌+◌, ◌≤◌, map, length, drop};
ghost use Rattle.mdb_bytes.specs.Fields.{Spells, Decodes, number_at, read_run};
ghost use Rattle.mdb_bytes.specs.Parts.{field_of, page_len, KeepsLimits};
ghost use Rattle.mdb_bytes.specs.ConverterPages.{converter_root_front, converter_root_format, converter_entry_fields, converter_entry_reads, converter_entry_format, converter_leaf_front, converter_leaf_format};

use crate::numbers::{u32_at, u64_at};
use crate::parts::{Part, parts_fit, write_parts};
use crate::record::{
    Record, behind, decode, parts_of, read_parts, read_rows, read_table, record, rows_fit,
    section_has_room, write_section,
};
use arrayvec::ArrayVec;

/// The blocks of the leaves.
#[derive(Drop)]
pub struct ConverterRoot {
    /// The savepoint that wrote it.
    pub savepoint: u64,
    pub leaves: ArrayVec<u32, 110>,
}

/// The block of a logical page and the number of the savepoint that wrote it last, both 0 for no
/// page.
#[derive(Clone, Copy, Debug, Default, PartialEq, Eq)]
pub struct ConverterEntry {
    pub block: u32,
    pub stamp: u64,
}

/// The entries of 600 page numbers.
#[derive(Clone, Copy)]
pub struct ConverterLeaf {
    /// Its number, from 0.
    pub leaf: u32,
    /// The savepoint that wrote it.
    pub savepoint: u64,
    pub entries: [ConverterEntry; 600],
}

// The bytes `MDBKCONR`.
const ROOT_LETTERS: u64 = 0x4D44_424B_434F_4E52;

// The bytes `MDBKCONL`.
const LEAF_LETTERS: u64 = 0x4D44_424B_434F_4E4C;

macro_rules! converter_root {
    ($body:ident $over:ident) => {
        record! { $body $over; ConverterRoot;
            {
                0 letters (ROOT_LETTERS),
                8 eight (savepoint),
                16 count (leaves),
                20 zeros (44),
                64 table (leaves, 16, 110),
            }
        }
    };
}

macro_rules! converter_entry {
    ($body:ident $over:ident) => {
        record! { $body $over; ConverterEntry;
            0 four (block),
            4 eight (stamp),
        }
    };
}

macro_rules! converter_leaf {
    ($body:ident $over:ident) => {
        record! { $body $over; ConverterLeaf;
            {
                0 letters (LEAF_LETTERS),
                8 four (leaf),
                12 fixed (600),
                16 eight (savepoint),
                24 zeros (40),
                64 part (entries: entries_at),
            }
        }
    };
}

fn root_front(value: &ConverterRoot) -> [Part; 4]
    ensures { map field_of result ≡ converter_root_front value.now }
{
    converter_root!(front value)
}

impl Record for ConverterRoot {
    ghost use Rattle.mdb_bytes.specs.ConverterPages.{converter_root_format};

    ghost format = { converter_root_format };

    ghost size = { 8192 };

    fn len() -> usize {
        8192
    }

    fn read(bytes: &[u8]) -> Self {
        converter_root!(read bytes)
    }

    fn fits(&self) -> bool {
        self.leaves.len() <= 110
    }

    fn has_room(&self) -> bool {
        section_has_room(&root_front(self), self.leaves.as_slice())
    }

    fn write(&self, into: &mut [u8]) {
        write_section(into, &root_front(self), 64, self.leaves.as_slice());
    }
}

fn entry_parts(value: &ConverterEntry) -> [Part; 2]
    ensures { map field_of result ≡ converter_entry_fields value.now }
{
    converter_entry!(parts value)
}

impl Record for ConverterEntry {
    ghost use Rattle.mdb_bytes.specs.ConverterPages.{converter_entry_format};

    ghost format = { converter_entry_format };

    ghost size = { 12 };

    fn len() -> usize {
        12
    }

    fn read(bytes: &[u8]) -> Self {
        converter_entry!(read bytes)
    }

    fn fits(&self) -> bool {
        (self.block == 0 && self.stamp == 0) || (self.block > 0 && self.stamp > 0)
    }

    fn has_room(&self) -> bool {
        parts_fit(&entry_parts(self))
    }

    fn write(&self, into: &mut [u8]) {
        write_parts(into, &entry_parts(self));
    }
}

fn entries_at(bytes: &[u8], at: usize) -> [ConverterEntry; 600]
    requires { at + 7200 ≤ length bytes.now }
    ensures { result ≡ read_run converter_entry_reads (λ e. 12) 600 (drop at bytes.now) }
{
    let mut entries = [ConverterEntry::default(); 600];
    read_rows(behind(bytes, at), &mut entries);
    entries
}

fn leaf_front(value: &ConverterLeaf) -> [Part; 5]
    ensures { map field_of result ≡ converter_leaf_front value.now }
{
    converter_leaf!(front value)
}

impl Record for ConverterLeaf {
    ghost use Rattle.mdb_bytes.specs.ConverterPages.{converter_leaf_format};

    ghost format = { converter_leaf_format };

    ghost size = { 8192 };

    fn len() -> usize {
        8192
    }

    fn read(bytes: &[u8]) -> Self {
        converter_leaf!(read bytes)
    }

    fn fits(&self) -> bool {
        self.leaf < 110 && self.entries.len() == 600 && rows_fit(&self.entries)
    }

    fn has_room(&self) -> bool {
        section_has_room(&leaf_front(self), &self.entries)
    }

    fn write(&self, into: &mut [u8]) {
        write_section(into, &leaf_front(self), 64, &self.entries);
    }
}

/// The page of a converter root.
pub fn encode_converter_root(value: &ConverterRoot, into: &mut [u8])
    requires exact { length into.old ≡ page_len }
    requires keeps { KeepsLimits converter_root_format value.now }
    ensures { Spells converter_root_format value.now into.new }
{
    value.write(into);
}

/// The converter root of such a page.
pub fn decode_converter_root(bytes: &[u8]) -> Option<ConverterRoot>
    ensures { Decodes converter_root_format bytes.now result }
{
    decode::<ConverterRoot, 8192>(bytes)
}

/// The page of a converter leaf.
pub fn encode_converter_leaf(value: &ConverterLeaf, into: &mut [u8])
    requires exact { length into.old ≡ page_len }
    requires keeps { KeepsLimits converter_leaf_format value.now }
    ensures { Spells converter_leaf_format value.now into.new }
{
    value.write(into);
}

/// The converter leaf of such a page.
pub fn decode_converter_leaf(bytes: &[u8]) -> Option<ConverterLeaf>
    ensures { Decodes converter_leaf_format bytes.now result }
{
    decode::<ConverterLeaf, 8192>(bytes)
}
