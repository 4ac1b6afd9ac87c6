//! The log info, the body of a slot of the log volume.
ghost use Rattle.std.specs.Prelude.{◌≡◌, ◌+◌, ◌≤◌, map, length};
ghost use Rattle.mdb_bytes.specs.Fields.{Spells, Decodes, number_at};
ghost use Rattle.mdb_bytes.specs.Parts.{field_of, KeepsLimits};
ghost use Rattle.mdb_bytes.specs.SlotRecords.{slot_len, log_info_fields, log_info_format};

use crate::numbers::{u32_at, u64_at};
use crate::parts::{Part, name_at, parts_fit, write_parts};
use crate::record::{Record, decode, parts_of, read_parts, record};
use mdb_model::name::Name;

/// Up to where the log is saved, and what a log backup that may not have ended would save.
#[derive(Clone, Copy, Debug, PartialEq, Eq)]
pub struct LogInfo {
    /// The number of the layout, 1.
    pub format: u32,
    /// The greater one of two slots counts.
    pub slot: u64,
    /// The database.
    pub name: Name,
    /// The last commit that a backup holds.
    pub saved_commit: u64,
    /// Where the log after it begins.
    pub saved_position: u64,
    /// The medium of a log backup that was begun, or 0.
    pub pending_medium: u32,
    /// The pages of the log volume.
    pub pages: u32,
    /// The last commit of that backup.
    pub pending_commit: u64,
    /// Where the log after it begins.
    pub pending_position: u64,
}

// The bytes `MDBKLOGI`.
const LETTERS: u64 = 0x4D44_424B_4C4F_4749;

macro_rules! log_info {
    ($body:ident $over:ident) => {
        record! { $body $over; LogInfo;
            0 letters (LETTERS),
            8 four (format),
            12 zeros (4),
            16 eight (slot),
            24 name (name),
            40 eight (saved_commit),
            48 eight (saved_position),
            56 four (pending_medium),
            60 four (pages),
            64 eight (pending_commit),
            72 eight (pending_position),
            80 zeros (8111),
        }
    };
}

fn parts(value: &LogInfo) -> [Part; 13]
    ensures { map field_of result ≡ log_info_fields value.now }
{
    log_info!(parts value)
}

impl Record for LogInfo {
    ghost use Rattle.mdb_bytes.specs.SlotRecords.{log_info_format};

    ghost format = { log_info_format };

    ghost size = { 8191 };

    fn len() -> usize {
        8191
    }

    fn read(bytes: &[u8]) -> Self {
        log_info!(read bytes)
    }

    fn fits(&self) -> bool {
        self.format == 1 && self.pending_medium <= 99
    }

    fn has_room(&self) -> bool {
        parts_fit(&parts(self))
    }

    fn write(&self, into: &mut [u8]) {
        write_parts(into, &parts(self));
    }
}

/// The body of a slot with this log info.
pub fn encode_log_info(value: &LogInfo, into: &mut [u8])
    requires exact { length into.old ≡ slot_len }
    requires keeps { KeepsLimits log_info_format value.now }
    ensures { Spells log_info_format value.now into.new }
{
    value.write(into);
}

/// The log info of such a body.
pub fn decode_log_info(bytes: &[u8]) -> Option<LogInfo>
    ensures { Decodes log_info_format bytes.now result }
{
    decode::<LogInfo, 8191>(bytes)
}
