//! What can go wrong outside, and where.
use thiserror::Error;

/// Out of memory.
#[derive(Clone, Copy, Debug, PartialEq, Eq)]
pub struct Memory;

/// A call on a device, a source or the output failed.
#[derive(Clone, Copy, Debug, PartialEq, Eq)]
pub struct Failed;

/// A data volume 1 to 8, the log volume, or a medium 1 to 99.
#[derive(Clone, Copy, Debug, PartialEq, Eq)]
pub enum Device {
    Data(u8),
    Log,
    Medium(u8),
}

/// A rule that the bytes of a device can break.
#[derive(Clone, Copy, Debug, PartialEq, Eq)]
pub enum Rule {
    Missing,
    Size,
    NoSlot,
    ConverterRoot,
    ConverterLeaf,
    Page,
    Block,
    Tree,
    Undo,
    Group,
    Header,
    Content,
    Room,
}

/// The first broken rule that was met, and where.
#[derive(Clone, Copy, Debug, PartialEq, Eq)]
pub struct Damage {
    pub device: Device,
    pub page: u32,
    pub rule: Rule,
}

/// Why a page or a group could not be read or written: a device failed, or its bytes break a rule.
#[derive(Clone, Copy, Debug, PartialEq, Eq, Error)]
pub enum PageFault {
    #[error("a device failed")]
    Failed,
    #[error("a device is damaged")]
    Damaged(Damage),
}

/// Why something could not be opened.
#[derive(Clone, Copy, Debug, PartialEq, Eq, Error)]
pub enum OpenFault {
    #[error("out of memory")]
    Memory,
    #[error("a device failed")]
    Failed,
    #[error("a device is damaged")]
    Damaged(Damage),
}
