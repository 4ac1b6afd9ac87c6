//! The restart record, the body of a slot of the data area.
ghost use Rattle.std.specs.Prelude.{◌≡◌, ◌+◌, ◌≤◌, map, length};
ghost use Rattle.mdb_bytes.specs.Fields.{Spells, Decodes, number_at};
ghost use Rattle.mdb_bytes.specs.Parts.{field_of, KeepsLimits, ascend_from};
ghost use Rattle.mdb_bytes.specs.SlotRecords.{slot_len, state_number, area_state_of, snapshot_fields, snapshot_format, restart_front, restart_middle, restart_numbers_fit, restart_tables_fit, restart_format};

use crate::numbers::{u32_at, u64_at};
use crate::parts::{Part, name_at, parts_fit, write_parts};
use crate::record::{
    Record, behind, decode, parts_of, read_parts, read_table, record, rows_fit, section_has_room,
    write_section,
};
use arrayvec::ArrayVec;
use mdb_model::name::Name;

/// Whether the data area is in order, or a recover was begun on it and not ended.
#[derive(Clone, Copy, Debug, PartialEq, Eq)]
pub enum AreaState {
    Normal,
    RestoreOpen,
}

impl AreaState {
    fn number(self) -> u32
        ensures { result ≡ state_number self }
    {
        match self {
            AreaState::Normal => 0,
            AreaState::RestoreOpen => 1,
        }
    }

    fn of_number(number: u32) -> AreaState
        ensures { result ≡ area_state_of number }
    {
        if number == 0 {
            AreaState::Normal
        } else {
            AreaState::RestoreOpen
        }
    }
}

/// A savepoint whose pages are kept.
#[derive(Clone, Copy, Debug, Default, PartialEq, Eq)]
pub struct SnapshotEntry {
    /// 1 to 8.
    pub number: u32,
    /// The block of its converter root.
    pub root: u32,
    /// The last commit that it holds.
    pub commit: u64,
    /// The blocks that it had as it was made.
    pub size: u32,
    pub savepoint: u64,
}

/// Where the last savepoint stands.
#[derive(Drop)]
pub struct RestartRecord {
    /// The number of the layout, 1.
    pub format: u32,
    pub state: AreaState,
    /// The greater one of two slots counts.
    pub slot: u64,
    /// The database.
    pub name: Name,
    /// The number of the savepoint.
    pub savepoint: u64,
    /// The last commit that it holds.
    pub commit: u64,
    /// Where the log after it begins.
    pub position: u64,
    /// The block of its converter root, 0 only while a restore is open.
    pub root: u32,
    /// The pages of each data volume; there are 1 to 8.
    pub volumes: ArrayVec<u32, 8>,
    /// The savepoint of the last data backup, or 0.
    pub base: u64,
    /// The medium of a data backup that was begun, or 0.
    pub pending_medium: u32,
    /// The savepoint of that backup, or 0.
    pub pending_savepoint: u64,
    /// By ascending number.
    pub snapshots: ArrayVec<SnapshotEntry, 8>,
}

// The bytes `MDBKREST`.
const LETTERS: u64 = 0x4D44_424B_5245_5354;

macro_rules! snapshot {
    ($body:ident $over:ident) => {
        record! { $body $over; SnapshotEntry;
            0 four (number),
            4 four (root),
            8 eight (commit),
            16 four (size),
            20 zeros (4),
            24 eight (savepoint),
        }
    };
}

fn snapshot_parts(value: &SnapshotEntry) -> [Part; 6]
    ensures { map field_of result ≡ snapshot_fields value.now }
{
    snapshot!(parts value)
}

impl Record for SnapshotEntry {
    ghost use Rattle.mdb_bytes.specs.SlotRecords.{snapshot_format};

    ghost format = { snapshot_format };

    ghost size = { 32 };

    fn len() -> usize {
        32
    }

    fn read(bytes: &[u8]) -> Self {
        snapshot!(read bytes)
    }

    fn fits(&self) -> bool {
        self.number >= 1 && self.number <= 8
    }

    fn has_room(&self) -> bool {
        parts_fit(&snapshot_parts(self))
    }

    fn write(&self, into: &mut [u8]) {
        write_parts(into, &snapshot_parts(self));
    }
}

fn ascend(after: u32, entries: &[SnapshotEntry]) -> bool
    ensures { result ≡ ascend_from after (map (λ e. e.number) entries.now) }
{
    match entries {
        [] => true,
        [first, rest @ ..] => after < first.number && ascend(first.number, rest),
    }
}

macro_rules! restart_record {
    ($body:ident $over:ident) => {
        record! { $body $over; RestartRecord;
            {
                0 letters (LETTERS),
                8 four (format),
                12 code (state: AreaState),
                16 eight (slot),
                24 name (name),
                40 eight (savepoint),
                48 eight (commit),
                56 eight (position),
                64 four (root),
                68 count (volumes),
                72 table (volumes, 68, 8),
            }
            {
                104 eight (base),
                112 four (pending_medium),
                116 count (snapshots),
                120 eight (pending_savepoint),
                128 table (snapshots, 116, 8),
            }
        }
    };
}

fn front(value: &RestartRecord) -> [Part; 11]
    ensures { map field_of result ≡ restart_front value.now }
{
    restart_record!(front value)
}

fn middle(value: &RestartRecord) -> [Part; 4]
    ensures { map field_of result ≡ restart_middle value.now }
{
    restart_record!(middle value)
}

fn numbers_fit(value: &RestartRecord) -> bool
    ensures { result ≡ restart_numbers_fit value.now }
{
    value.format == 1
        && value.name.birth >= 1
        && value.name.generation >= 1
        && (value.root > 0 || value.state.number() == 1)
        && value.pending_medium <= 99
}

fn tables_fit(value: &RestartRecord) -> bool
    ensures { result ≡ restart_tables_fit value.now }
{
    value.volumes.len() >= 1
        && value.volumes.len() <= 8
        && value.snapshots.len() <= 8
        && rows_fit(value.snapshots.as_slice())
        && ascend(0, value.snapshots.as_slice())
}

impl Record for RestartRecord {
    ghost use Rattle.mdb_bytes.specs.SlotRecords.{restart_format};

    ghost format = { restart_format };

    ghost size = { 8191 };

    fn len() -> usize {
        8191
    }

    fn read(bytes: &[u8]) -> Self {
        restart_record!(read bytes)
    }

    fn fits(&self) -> bool {
        numbers_fit(self) && tables_fit(self)
    }

    fn has_room(&self) -> bool {
        section_has_room(&front(self), self.volumes.as_slice())
            && section_has_room(&middle(self), self.snapshots.as_slice())
    }

    fn write(&self, into: &mut [u8]) {
        let (start, rest) = into.split_at_mut(104);
        write_section(start, &front(self), 72, self.volumes.as_slice());
        write_section(rest, &middle(self), 24, self.snapshots.as_slice());
    }
}

/// The body of a slot with this restart record.
pub fn encode_restart_record(value: &RestartRecord, into: &mut [u8])
    requires exact { length into.old ≡ slot_len }
    requires keeps { KeepsLimits restart_format value.now }
    ensures { Spells restart_format value.now into.new }
{
    value.write(into);
}

/// The restart record of such a body.
pub fn decode_restart_record(bytes: &[u8]) -> Option<RestartRecord>
    ensures { Decodes restart_format bytes.now result }
{
    decode::<RestartRecord, 8191>(bytes)
}

/// The bytes of one entry.
pub fn encode_snapshot_entry(value: &SnapshotEntry, into: &mut [u8])
    requires exact { length into.old ≡ 32 }
    requires keeps { KeepsLimits snapshot_format value.now }
    ensures { Spells snapshot_format value.now into.new }
{
    value.write(into);
}

/// The entry of such bytes.
pub fn decode_snapshot_entry(bytes: &[u8]) -> Option<SnapshotEntry>
    ensures { Decodes snapshot_format bytes.now result }
{
    decode::<SnapshotEntry, 32>(bytes)
}
