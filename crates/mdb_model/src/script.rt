//! The lines of a script and the replies to them.
use crate::bytes::{FoundValue, Key, Value};
use crate::fault::Damage;
use crate::name::{Name, Session, State, Table};
use arrayvec::ArrayVec;

/// What a data backup holds: all pages, or those changed since the one before.
#[derive(Clone, Copy, Debug, PartialEq, Eq)]
pub enum PageKind {
    Complete,
    Incremental,
}

/// What a backup holds.
#[derive(Clone, Copy, Debug, PartialEq, Eq)]
pub enum BackupKind {
    OfPages(PageKind),
    OfLog,
}

/// A line of a script, one variant for each form.
#[derive(Drop)]
pub enum Command {
    GetRow(Session, Table, Key),
    PutRow(Session, Table, Key, Value),
    DelRow(Session, Table, Key),
    ScanTable(Session, Table),
    CommitWork(Session),
    RollbackWork(Session),
    DbAdmin,
    DbOnline,
    DbOffline,
    DbState,
    Kill,
    MakeSavepoint,
    TaskSavepoint,
    TaskBackup(u8, PageKind),
    TurnSavepoint,
    TurnBackup,
    MediumPut(u8, u32),
    MediumDelete(u8),
    MediumList,
    BackupStart(u8, BackupKind),
    Recover {
        media: ArrayVec<u8, 99>,
        log: bool,
        until: Option<u64>,
    },
    SnapshotCreate,
    SnapshotDrop(u8),
    SnapshotRevert(u8),
    Info,
    CheckData,
}

/// Why a line is refused, one variant for each number.
#[derive(Clone, Copy, Debug, PartialEq, Eq)]
pub enum Refusal {
    Syntax,
    WrongState(State),
    Locked(Session),
    DataFull { want: u64, blocks: u64 },
    LogFull { unsaved: u64, size: u64 },
    TransactionLarge(u64),
    NoMedium,
    MediumUsed,
    MediumFull(u64),
    MediumEmpty,
    NeedData,
    ChainGap(u64),
    UntilOutside { lo: u64, hi: u64 },
    AreaSmall { have: u64, want: u64 },
    NoSnapshot,
    SnapshotsFull,
    TaskBusy,
    NoTask,
    RestoreOpen,
    Damaged(Damage),
    NumberEnd,
    DeviceFailed,
    MemoryWanting,
}

/// The reply to a line, one variant for each form. The rows of a scan and the lines of a list of
/// media are asked for one at a time, past `ScanOpen` and `MediaOpen`.
#[derive(Drop)]
pub enum Reply {
    Found(FoundValue),
    NoRow,
    PutDone,
    DelDone,
    ScanOpen,
    Committed(u64),
    NothingToCommit,
    RolledBack,
    AdminAt(u64),
    OnlineAt(u64),
    OfflineNow,
    StateIs(State),
    SavepointDone,
    TaskBegun,
    Running(u64),
    PagesSaved(PageKind, u64),
    LogSaved {
        first: u64,
        last: u64,
    },
    MediumMade,
    MediumDeleted,
    MediaOpen,
    Recovered(u64),
    SnapshotMade(u8, u64),
    SnapshotDropped,
    Reverted(u64),
    InfoIs {
        name: Name,
        commit: u64,
        saved: u64,
        blocks: u64,
        need: u64,
    },
    Checked,
    Refused(Refusal),
}

/// What a medium holds, as a list of media shows it.
#[derive(Clone, Copy, Debug, PartialEq, Eq)]
pub enum MediumState {
    Blank,
    Busy,
    Saved(PageKind, Name, u64),
    SavedLog(Name, u64, u64),
}

/// One line of a list of media.
#[derive(Clone, Copy, Debug, PartialEq, Eq)]
pub struct MediumLine {
    pub medium: u8,
    pub pages: u32,
    pub holds: MediumState,
}

/// What a scan gives when it is asked for one more row.
#[derive(Drop)]
pub enum Next {
    Row,
    End,
    Fault(Reply),
}

/// What a list of media gives when it is asked for one more line.
#[derive(Drop)]
pub enum MediumNext {
    Line(MediumLine),
    End,
    Fault(Reply),
}
