//! Reading the log, group by group.
ghost use Rattle.std.specs.Prelude.{◌≡◌, ◌↔◌, ℕ, ◌+◌, ◌-◌, ◌≤◌, ◌<◌, ◌^◌, List, ◌++◌, length, drop, Err, IfOk, OnOk, IsTrue, true};
ghost use Rattle.mdb_model.specs.Causes.{Rose, HasCause};
ghost use Rattle.mdb_model.specs.declared.change.Commit.{Commit};
ghost use Rattle.mdb_host.specs.Disk.{Disk, Goes, Agree};
ghost use Rattle.mdb_host.specs.Reads.{ReadsOnly};
ghost use Rattle.mdb_bytes.specs.LogReading.{IsLog, log_bytes};
ghost use Rattle.mdb_bytes.specs.Rings.{HasRing, IsRingSize, ring_byte};
ghost use Rattle.redo_ring.specs.Ring.{HasGroup, HasBytesAt, damage_at};
ghost use Rattle.redo_ring.specs.Reading.{IsReader, FindsGroup, MovesReader, IsNextOf, HoldsGate, StepsOn, WalkFinds, WalkEnds};

use crate::pieces::read_ring;
use crate::window::Window;
use mdb_bytes::{GroupBuf, group_len, is_due};
use mdb_host::{Device, Failed, Host};
use mdb_model::fault::{Damage, PageFault, Rule};
use mdb_model::limits::{GROUP_HEAD, LONGEST_GROUP, OPEN_GATE};
use mdb_model::name::Name;

// How many bytes are read at once at the gate of a group: those of a commit of a few rows.
const FRONT: usize = 512;

/// Reads the groups of a log from a position on, up to the first closed gate.
#[derive(Clone, Copy, Debug, PartialEq, Eq)]
pub struct RingReader {
    /// The database whose groups are due.
    pub name: Name,
    /// The bytes of the ring.
    pub size: u64,
    /// Where it began: all groups from there on have together fewer bytes than the ring.
    pub start: u64,
    /// The gate that it stands at.
    pub position: u64,
    /// The number of the commit before.
    pub number: u64,
}

impl RingReader {
    /// Reads the next group into `into`, with its gate; false at a closed gate. Where a device
    /// fails, or where bytes that are not the group that is due stand after an open gate, the
    /// reader stays where it is, and `into` has anything.
    pub fn next<H: Host>(&mut self, host: &mut H, into: &mut GroupBuf) -> Result<bool, PageFault>
        requires order { IsReader self.old }
        requires ring { H.tells → HasRing self.old.size (H.disk host.old).seen }
        // The devices.
        ensures calm { H.tells → Goes (H.disk host.old) (H.disk host.new) Agree }
        ensures seen { H.tells → Agree (H.disk host.old).seen (H.disk host.new).seen }
        // The result.
        ensures order { IsReader self.new }
        ensures group { IfOk result (λ more. more ≡ true
            → HasGroup self.old.name (self.old.number + 1) into.new) }
        ensures goes { MovesReader self.old self.new into.new result }
        ensures finds { H.tells → FindsGroup self.old.size self.old.name
            (ring_byte self.old.size (H.disk host.old).seen) self.old.start self.old.position
            self.old.number into.new result }
        ensures next { H.tells → (commits : List Commit)
            → IsLog (ring_byte self.old.size (H.disk host.old).seen) self.old.name self.old.position
            self.old.number commits
            → self.old.position + log_bytes commits < self.old.start + self.old.size
            → IsNextOf self.old.size self.old.name (ring_byte self.old.size (H.disk host.old).seen)
            self.old.position self.old.number into.new commits result }
        // The faults.
        ensures later { H.faults host.old ≤ H.faults host.new }
        ensures cause { result ≡ Err PageFault.Failed
            → Rose (H.faults host.old) (H.faults host.new) }
        ensures say_faults { H.say_faults host.new ≡ H.say_faults host.old }
    {
        let mut head = [0u8; FRONT];
        let Ok(()) = read_ring(host, self.size, self.position, &mut head) else {
            return Err(PageFault::Failed);
        };
        if head[0] != OPEN_GATE {
            return Ok(false);
        }
        let bytes = group_len(&head) as u64;
        if !self.has_room(bytes) {
            return Err(self.damage());
        }
        let Ok(()) = read_whole(host, self.size, self.position, &head, bytes, into) else {
            return Err(PageFault::Failed);
        };
        if !is_due(into.bytes(), self.name, self.number + 1) {
            return Err(self.damage());
        }
        self.position += bytes;
        self.number += 1;
        Ok(true)
    }

    /// Reads the next group as `next` does, from a log volume that may have any size: where it is
    /// not as long as its ring asks, that is called damaged, and nothing is read. A keeper of a log
    /// can have no condition on devices, so it asks this.
    pub fn next_if_there<H: Host>(
        &mut self,
        host: &mut H,
        into: &mut GroupBuf,
    ) -> Result<bool, PageFault>
        requires order { IsReader self.old }
        // The devices.
        ensures calm { H.tells → Goes (H.disk host.old) (H.disk host.new) Agree }
        ensures seen { H.tells → Agree (H.disk host.old).seen (H.disk host.new).seen }
        // The result.
        ensures order { IsReader self.new }
        ensures group { IfOk result (λ more. more ≡ true
            → HasGroup self.old.name (self.old.number + 1) into.new) }
        ensures goes { MovesReader self.old self.new into.new result }
        ensures finds { H.tells → HasRing self.old.size (H.disk host.old).seen
            → FindsGroup self.old.size self.old.name
            (ring_byte self.old.size (H.disk host.old).seen) self.old.start self.old.position
            self.old.number into.new result }
        ensures next { H.tells → HasRing self.old.size (H.disk host.old).seen
            → (commits : List Commit)
            → IsLog (ring_byte self.old.size (H.disk host.old).seen) self.old.name self.old.position
            self.old.number commits
            → self.old.position + log_bytes commits < self.old.start + self.old.size
            → IsNextOf self.old.size self.old.name (ring_byte self.old.size (H.disk host.old).seen)
            self.old.position self.old.number into.new commits result }
        // The faults.
        ensures later { H.faults host.old ≤ H.faults host.new }
        ensures cause { result ≡ Err PageFault.Failed
            → Rose (H.faults host.old) (H.faults host.new) }
        ensures say_faults { H.say_faults host.new ≡ H.say_faults host.old }
    {
        match host.size(Device::Log) {
            Some(pages) if pages == 2 + self.size / 8192 => self.next(host, into),
            _ => Err(PageFault::Damaged(Damage {
                device: Device::Log,
                page: 0,
                rule: Rule::Size,
            })),
        }
    }

    // Reads the next group as `next` does, from the window. The ring is read only where the window
    // does not hold the group, and `into` is used only where no window holds it.
    fn step<H: Host>(
        &mut self,
        host: &mut H,
        window: &mut Window,
        into: &mut GroupBuf,
    ) -> Result<bool, PageFault>
        requires order { IsReader self.old }
        requires ring { H.tells → HasRing self.old.size (H.disk host.old).seen }
        requires there { H.tells → HasBytesAt (ring_byte self.old.size (H.disk host.old).seen)
            self.old.position window.old }
        ensures order { IsReader self.new }
        ensures reads { ReadsOnly H.Host host.old host.new }
        ensures steps { StepsOn H.tells (ring_byte self.old.size (H.disk host.old).seen) self.old
            self.new result }
        ensures there { H.tells → HasBytesAt (ring_byte self.new.size (H.disk host.new).seen)
            self.new.position window.new }
        ensures cause { result ≡ Err PageFault.Failed
            → Rose (H.faults host.old) (H.faults host.new) }
    {
        if !holds_gate(window.rest()) {
            let Ok(()) = window.fill(host, self.size, self.position) else {
                return Err(PageFault::Failed);
            };
        }
        if holds_gate(window.rest()) {
            return self.take(window);
        }
        window.clear();
        self.next(host, into)
    }

    // Goes past the group at the front of the window; false at a closed gate. Where that is not the
    // group that is due, the reader and the window stay.
    fn take(&mut self, window: &mut Window) -> Result<bool, PageFault>
        requires order { IsReader self.old }
        requires holds { HoldsGate window.old }
        ensures order { IsReader self.new }
        ensures steps { (ring : ℕ → ℕ) → StepsOn (HasBytesAt ring self.old.position window.old) ring
            self.old self.new result }
        ensures passes { window.new ≡ drop (self.new.position - self.old.position) window.old }
        ensures no_failure { result ≡ Err PageFault.Failed → ⊥ }
    {
        let rest = window.rest();
        if rest[0] != OPEN_GATE {
            return Ok(false);
        }
        let bytes = group_len(rest) as u64;
        if !self.has_room(bytes) {
            return Err(self.damage());
        }
        if !is_due(&rest[..bytes as usize], self.name, self.number + 1) {
            return Err(self.damage());
        }
        window.pass(bytes as usize);
        self.position += bytes;
        self.number += 1;
        Ok(true)
    }

    // Whether a group of so many bytes can stand at the position.
    fn has_room(&self, bytes: u64) -> bool
        requires order { IsReader self.now }
        requires small { bytes < 2 ^ 32 }
        ensures { IsTrue result ↔ ((33 ≤ bytes) × (bytes ≤ 1048576)
            × (self.now.position + bytes < self.now.start + self.now.size)) }
    {
        GROUP_HEAD as u64 <= bytes
            && bytes <= LONGEST_GROUP as u64
            && self.position + bytes < self.start + self.size
    }

    // The gate is open before bytes that are not the group that is due.
    fn damage(&self) -> PageFault
        requires { IsReader self.now }
        ensures { result ≡ PageFault.Damaged (damage_at self.now.size self.now.position) }
    {
        PageFault::Damaged(Damage {
            device: Device::Log,
            page: (2 + self.position % self.size / 8192) as u32,
            rule: Rule::Group,
        })
    }
}

// Whether the bytes hold what stands at their front: a closed gate, or a group with its gate.
fn holds_gate(bytes: &[u8]) -> bool
    ensures { IsTrue result ↔ HoldsGate bytes.now }
{
    if bytes.is_empty() {
        return false;
    }
    if bytes[0] != OPEN_GATE {
        return true;
    }
    GROUP_HEAD <= bytes.len() && group_len(bytes) as usize <= bytes.len()
}

// Reads a few bytes of the ring after those that are there.
fn read_more<H: Host>(
    host: &mut H,
    size: u64,
    position: u64,
    count: usize,
    into: &mut GroupBuf,
) -> Result<(), Failed>
    requires size { IsRingSize size }
    requires one_call { count ≤ 8192 }
    requires room { length into.old + count ≤ 1048576 }
    requires ring { H.tells → HasRing size (H.disk host.old).seen }
    ensures reads { ReadsOnly H.Host host.old host.new }
    ensures added { OnOk result ((bytes : List ℕ) × (length bytes ≡ count)
        × (into.new ≡ into.old ++ bytes)
        × (H.tells → HasBytesAt (ring_byte size (H.disk host.old).seen) position bytes)) }
    ensures cause { HasCause (H.faults host.old) (H.faults host.new) result }
{
    let mut piece = [0u8; 8192];
    let (bytes, _) = piece.split_at_mut(count);
    read_ring(host, size, position, bytes)?;
    into.append(bytes);
    Ok(())
}

// Reads so many bytes of the ring, where those in front were read already: a small group is among
// them.
fn read_whole<H: Host>(
    host: &mut H,
    size: u64,
    position: u64,
    front: &[u8],
    bytes: u64,
    into: &mut GroupBuf,
) -> Result<(), Failed>
    requires size { IsRingSize size }
    requires low { position < 2 ^ 63 }
    requires room { bytes ≤ 1048576 }
    requires ring { H.tells → HasRing size (H.disk host.old).seen }
    requires there { H.tells → HasBytesAt (ring_byte size (H.disk host.old).seen) position
        front.now }
    ensures reads { ReadsOnly H.Host host.old host.new }
    ensures len { OnOk result (length into.new ≡ bytes) }
    ensures bytes { OnOk result (H.tells
        → HasBytesAt (ring_byte size (H.disk host.old).seen) position into.new) }
    ensures cause { HasCause (H.faults host.old) (H.faults host.new) result }
{
    let front = match front.get(..bytes as usize) {
        Some(front) => front,
        None => return read_group(host, size, position, bytes, into),
    };
    into.clear();
    into.append(front);
    Ok(())
}

// Reads so many bytes of the ring.
fn read_group<H: Host>(
    host: &mut H,
    size: u64,
    position: u64,
    bytes: u64,
    into: &mut GroupBuf,
) -> Result<(), Failed>
    requires size { IsRingSize size }
    requires low { position < 2 ^ 63 }
    requires room { bytes ≤ 1048576 }
    requires ring { H.tells → HasRing size (H.disk host.old).seen }
    ensures reads { ReadsOnly H.Host host.old host.new }
    ensures len { OnOk result (length into.new ≡ bytes) }
    ensures bytes { OnOk result (H.tells
        → HasBytesAt (ring_byte size (H.disk host.old).seen) position into.new) }
    ensures cause { HasCause (H.faults host.old) (H.faults host.new) result }
{
    into.clear();
    let mut done = 0;
    while done < bytes {
        let count = (bytes - done).min(8192);
        read_more(host, size, position + done, count as usize, into)?;
        done += count;
    }
    Ok(())
}

/// Reads all groups up to the closed gate, from 8,192 bytes of the ring at a time.
pub(crate) fn walk<H: Host>(
    host: &mut H,
    reader: &mut RingReader,
    into: &mut GroupBuf,
) -> Result<(), PageFault>
    requires order { IsReader reader.old }
    requires begins { reader.old.position ≡ reader.old.start }
    requires ring { H.tells → HasRing reader.old.size (H.disk host.old).seen }
    ensures order { IsReader reader.new }
    ensures grown { reader.new.number + reader.old.start ≤ reader.old.number + reader.new.position }
    ensures same { (reader.new.name ≡ reader.old.name) × (reader.new.size ≡ reader.old.size)
        × (reader.new.start ≡ reader.old.start) }
    ensures reads { ReadsOnly H.Host host.old host.new }
    ensures finds { H.tells → WalkFinds reader.old.size reader.old.name
        (ring_byte reader.old.size (H.disk host.old).seen) reader.old.start reader.old.number
        reader.new.position reader.new.number result }
    ensures ends { H.tells → (commits : List Commit)
        → IsLog (ring_byte reader.old.size (H.disk host.old).seen) reader.old.name reader.old.start
        reader.old.number commits → log_bytes commits < reader.old.size
        → WalkEnds reader.old.start reader.old.number reader.new.position reader.new.number commits
        result }
    ensures cause { result ≡ Err PageFault.Failed → Rose (H.faults host.old) (H.faults host.new) }
{
    let mut window = Window::new();
    while reader.position < reader.start + reader.size {
        if !reader.step(host, &mut window, into)? {
            return Ok(());
        }
    }
    Ok(())
}
