//! Opening a log: both ways to its end have to agree.
ghost use Rattle.std.specs.Prelude.{◌≡◌, ℕ, ◌+◌, ◌≤◌, ◌<◌, ◌^◌, List, Err, IfOk};
ghost use Rattle.mdb_model.specs.Causes.{Rose};
ghost use Rattle.mdb_model.specs.declared.change.Commit.{Commit};
ghost use Rattle.mdb_host.specs.Disk.{Disk, Goes, Agree};
ghost use Rattle.mdb_host.specs.Reads.{ReadsOnly};
ghost use Rattle.mdb_bytes.specs.LogReading.{IsLog, log_bytes};
ghost use Rattle.mdb_bytes.specs.Rings.{HasRing, IsRingSize, ring_byte, ring_size};
ghost use Rattle.redo_ring.specs.Ring.{damage_at};
ghost use Rattle.redo_ring.specs.Ends.{IsEnd, IsEndOf, EndFinds, EndEnds, BothFinds, BothEnds};
ghost use Rattle.redo_ring.specs.Opening.{IsStart, IsRingOpened, OpenFinds, IsWhole, OpenEnds};
ghost use Rattle.redo_ring.specs.Reading.{IsReader};

use crate::reader::{RingReader, walk};
use crate::ring::Ring;
use mdb_bytes::GroupBuf;
use mdb_host::{Device, Host};
use mdb_model::fault::{Damage, OpenFault, PageFault, Rule};
use mdb_model::name::Name;
use std::alloc::Global;

/// Where the log begins that is to be opened.
#[derive(Clone, Copy, Debug, PartialEq, Eq)]
pub struct LogStart {
    /// The database whose groups stand in it.
    pub name: Name,
    /// The pages of the log volume, 4 to 65,536.
    pub pages: u32,
    /// Where a restart begins to read.
    pub position: u64,
    /// The number of the last commit before that.
    pub commit: u64,
    /// Up to where the log is saved by a backup.
    pub saved_position: u64,
    /// The number of the last commit that is saved.
    pub saved_commit: u64,
}

// The gate of the next group, and the number of the last commit.
#[derive(Clone, Copy, Debug, PartialEq, Eq)]
struct LogEnd {
    position: u64,
    commit: u64,
}

impl Ring {
    /// Opens the log: reads it from where a restart begins and from where it is not saved, up to
    /// the first closed gate. Where both ways do not end at one place, the log is damaged there.
    pub fn open<H: Host>(alloc: Global, host: &mut H, start: &LogStart) -> Result<Ring, OpenFault>
        requires start { IsStart start.now }
        requires ring { H.tells → HasRing (ring_size start.now.pages) (H.disk host.old).seen }
        // The devices.
        ensures calm { H.tells → Goes (H.disk host.old) (H.disk host.new) Agree }
        ensures seen { H.tells → Agree (H.disk host.old).seen (H.disk host.new).seen }
        // The result.
        ensures opened { IfOk result (λ ring. IsRingOpened start.now ring) }
        ensures finds { H.tells → OpenFinds start.now
            (ring_byte (ring_size start.now.pages) (H.disk host.old).seen) result }
        ensures ends { H.tells → (commits unsaved : List Commit)
            → IsWhole start.now (ring_byte (ring_size start.now.pages) (H.disk host.old).seen)
            commits unsaved → OpenEnds start.now commits result }
        // The faults.
        ensures later { H.faults host.old ≤ H.faults host.new }
        ensures cause { result ≡ Err OpenFault.Failed
            → Rose (H.faults host.old) (H.faults host.new) }
        ensures say_faults { H.say_faults host.new ≡ H.say_faults host.old }
    {
        let Ok(mut group) = GroupBuf::new(alloc) else {
            return Err(OpenFault::Memory);
        };
        match both_ends(host, start, &mut group) {
            Ok(end) => Ok(ring_of(start, end)),
            Err(PageFault::Failed) => Err(OpenFault::Failed),
            Err(PageFault::Damaged(damage)) => Err(OpenFault::Damaged(damage)),
        }
    }

    /// A reader of the groups from a position on, after this commit.
    pub fn reader(&self, position: u64, commit: u64) -> RingReader
        requires size { IsRingSize self.now.size }
        requires low { position < 2 ^ 62 }
        requires count { commit < 2 ^ 61 + position }
        ensures begins { result ≡ record {
          name = self.now.name;
          size = self.now.size;
          start = position;
          position = position;
          number = commit;
        } }
        ensures order { IsReader result }
    {
        RingReader {
            name: self.name,
            size: self.size,
            start: position,
            position,
            number: commit,
        }
    }
}

// The bytes of the ring of a log volume.
fn ring_len(pages: u32) -> u64
    requires { IsRingSize (ring_size pages) }
    ensures { result ≡ ring_size pages }
{
    (pages as u64 - 2) * 8192
}

// The ring that ends here.
fn ring_of(start: &LogStart, end: LogEnd) -> Ring
    requires start { IsStart start.now }
    requires end { IsEndOf start.now end }
    ensures opened { IsRingOpened start.now result }
    ensures ends { (result.end_position ≡ end.position) × (result.last_commit ≡ end.commit) }
{
    Ring {
        name: start.name,
        size: ring_len(start.pages),
        redo_position: start.position,
        saved_position: start.saved_position,
        saved_commit: start.saved_commit,
        end_position: end.position,
        last_commit: end.commit,
    }
}

// The end of the log from a position on.
fn log_end<H: Host>(
    host: &mut H,
    name: Name,
    size: u64,
    position: u64,
    commit: u64,
    into: &mut GroupBuf,
) -> Result<LogEnd, PageFault>
    requires size { IsRingSize size }
    requires low { position < 2 ^ 62 }
    requires count { commit < 2 ^ 61 + position }
    requires ring { H.tells → HasRing size (H.disk host.old).seen }
    ensures reads { ReadsOnly H.Host host.old host.new }
    ensures order { IfOk result (λ end. IsEnd size position end) }
    ensures grown { IfOk result (λ end. end.commit + position ≤ commit + end.position) }
    ensures finds { H.tells → EndFinds size name (ring_byte size (H.disk host.old).seen) position
        commit result }
    ensures ends { H.tells → (commits : List Commit)
        → IsLog (ring_byte size (H.disk host.old).seen) name position commit commits
        → log_bytes commits < size → EndEnds position commit commits result }
    ensures cause { result ≡ Err PageFault.Failed → Rose (H.faults host.old) (H.faults host.new) }
{
    let mut reader = RingReader {
        name,
        size,
        start: position,
        position,
        number: commit,
    };
    walk(host, &mut reader, into)?;
    Ok(LogEnd {
        position: reader.position,
        commit: reader.number,
    })
}

// The end of the log, both from where a restart begins and from where it is not saved.
fn both_ends<H: Host>(
    host: &mut H,
    start: &LogStart,
    into: &mut GroupBuf,
) -> Result<LogEnd, PageFault>
    requires start { IsStart start.now }
    requires ring { H.tells → HasRing (ring_size start.now.pages) (H.disk host.old).seen }
    ensures reads { ReadsOnly H.Host host.old host.new }
    ensures order { IfOk result (λ end. IsEndOf start.now end) }
    ensures finds { H.tells → BothFinds start.now
        (ring_byte (ring_size start.now.pages) (H.disk host.old).seen) result }
    ensures ends { H.tells → (commits unsaved : List Commit)
        → IsWhole start.now (ring_byte (ring_size start.now.pages) (H.disk host.old).seen) commits
        unsaved → BothEnds start.now commits result }
    ensures cause { result ≡ Err PageFault.Failed → Rose (H.faults host.old) (H.faults host.new) }
{
    let size = ring_len(start.pages);
    let end = log_end(host, start.name, size, start.position, start.commit, into)?;
    if start.saved_position == start.position && start.saved_commit == start.commit {
        return Ok(end);
    }
    let unsaved = log_end(
        host,
        start.name,
        size,
        start.saved_position,
        start.saved_commit,
        into,
    )?;
    if end.position != unsaved.position || end.commit != unsaved.commit {
        return Err(parted(size, end.position));
    }
    Ok(end)
}

// Two ways through the log end at two places; this is the first of them.
fn parted(size: u64, position: u64) -> PageFault
    requires { IsRingSize size }
    ensures { result ≡ PageFault.Damaged (damage_at size position) }
{
    PageFault::Damaged(Damage {
        device: Device::Log,
        page: (2 + position % size / 8192) as u32,
        rule: Rule::Group,
    })
}
