//! The sizes and limits that all crates share.

/// Bytes of a page, and of a block of the data area.
pub const PAGE_BYTES: usize = 8_192;

/// Bytes of a logical page after its header of 64 bytes: the most that its entries use.
pub const PAGE_ROOM: usize = 8_128;

/// The fewest blocks of one data volume.
pub const LEAST_VOLUME_BLOCKS: u32 = 64;

/// The fewest blocks of a data area, all its volumes together.
pub const LEAST_BLOCKS: u32 = 512;

/// The most blocks of a data area, and the most pages of a log volume.
pub const MOST_BLOCKS: u32 = 65_536;

/// The fewest pages of a log volume, of which two are slots.
pub const LEAST_LOG_PAGES: u32 = 4;

/// The devices that a database may have: eight data volumes, the log volume and 99 media.
pub const MOST_DEVICES: u8 = 108;

/// Bytes of the longest commit group.
pub const LONGEST_GROUP: usize = 1_048_576;

/// Bytes of a commit group without changes.
pub const GROUP_HEAD: usize = 33;

/// Bytes of a change in a commit group beside its key and its value.
pub const CHANGE_HEAD: usize = 7;

/// The byte of an open gate; every other value is closed.
pub const OPEN_GATE: u8 = 0x4F;

/// The byte that closes a gate.
pub const CLOSED_GATE: u8 = 0;

/// Numbers of the layouts are below this one.
pub const LAYOUT_NUMBER_END: u64 = 1 << 62;

/// A number of a record that is this one or greater is past the end: no restart takes it.
pub const RECORD_NUMBER_END: u64 = 1 << 61;

/// Bytes of the longest key, of the longest value, and of the longest line that is no refusal.
pub const LONGEST_KEY: usize = 256;

pub const LONGEST_VALUE: usize = 1_500;

pub const LONGEST_LINE: usize = 8_192;

/// The most lines that a script may count as.
pub const MOST_LINES: u64 = 16_777_216;
