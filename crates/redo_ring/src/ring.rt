//! The log as it stands: where it begins and where it ends. What holds of a ring whenever a call
//! begins (`InOrder`), and of the log on the devices that it speaks of (`IsDue`):
//!
//! 1. The ring has 2 to 65,534 pages.
//! 2. What is not saved by a backup, and what a restart reads, begins no later than the log ends.
//! 3. The log ends below position 2^63.
//! 4. The number of the last commit is below the sum of 2^61 and that end: each group has bytes.
//! 5. From where a restart begins the groups stand one after another with open gates, in the order
//!    of their numbers, up to the gate of the next group, which is closed.
//! 6. The groups from there on have the last commit's number as their last.
//! 7. A group that has room fits with a closed gate after it, less than a turn after the first byte
//!    that is still needed.
ghost use Rattle.std.specs.Prelude.{◌≡◌, ℕ, ◌+◌, ◌-◌, ◌≤◌, ◌<◌, ◌^◌, List, [], ◌∷◌, ◌++◌, length, OnOk, OnErr, Err};
ghost use Rattle.mdb_model.specs.Causes.{Rose, HasCause};
ghost use Rattle.mdb_model.specs.declared.change.Change.{Change};
ghost use Rattle.mdb_model.specs.declared.name.Name.{Name};
ghost use Rattle.mdb_host.specs.Disk.{Disk, Goes, Arrives, AgreeBut};
ghost use Rattle.mdb_model.specs.declared.fault.Device.TheVariants.{Log};
ghost use Rattle.mdb_bytes.specs.Fields.{Spells};
ghost use Rattle.mdb_bytes.specs.Groups.{group_format};
ghost use Rattle.mdb_bytes.specs.Rings.{HasRing, IsRingSize};
ghost use Rattle.redo_ring.specs.Ring.{HasGroup, Appends, Appended};
ghost use Rattle.redo_ring.specs.Calls.{InOrder, AppendAnswer, Untouched};

use crate::fault::RingFault;
use crate::pieces::write_ring_kept;
use mdb_bytes::GroupBuf;
use mdb_host::{Failed, Host};
use mdb_model::limits::OPEN_GATE;
use mdb_model::name::Name;
/// The log of one database. Positions count bytes since its creation and never fall: position p
/// lies at byte `p % size` of the ring.
#[derive(Clone, Copy, Debug, PartialEq, Eq)]
pub struct Ring {
    /// The database whose groups stand in it.
    pub name: Name,
    /// The bytes of the ring.
    pub size: u64,
    /// Where a restart begins to read.
    pub redo_position: u64,
    /// Up to where the log is saved by a backup.
    pub saved_position: u64,
    /// The number of the last commit that is saved.
    pub saved_commit: u64,
    /// The gate of the next group.
    pub end_position: u64,
    /// The number of the last group's commit.
    pub last_commit: u64,
}

impl Ring {
    /// The gate of the next group.
    pub fn end(&self) -> u64
        ensures { result ≡ self.now.end_position }
    {
        self.end_position
    }

    /// Appends a group: its bytes and a closed gate after it, a sync, its open gate, a sync. After
    /// a fault of a device the group stands in the log or not, until the log is read again.
    pub fn append<H: Host>(&mut self, host: &mut H, group: &GroupBuf) -> Result<(), RingFault>
        requires order { InOrder self.old }
        requires low { self.old.end_position + length group.now < 2 ^ 62 }
        requires due { HasGroup self.old.name (self.old.last_commit + 1) group.now }
        requires ring { H.tells → HasRing self.old.size (H.disk host.old).seen }
        // The result.
        ensures answer { AppendAnswer self.old.size
            (self.old.end_position - self.old.saved_position)
            (self.old.end_position - self.old.redo_position) (length group.now) result }
        ensures ok { OnOk result (self.new
            ≡ record self.old {
              end_position = self.old.end_position
                  + length group.now;
              last_commit = self.old.last_commit + 1;
            }) }
        ensures err { OnErr result (self.new ≡ self.old) }
        ensures untouched { Untouched result (host.new ≡ host.old) }
        // The devices.
        ensures any_moment { H.tells → (changes : List Change)
            → Spells group_format (record {
              name = self.old.name;
              number = self.old.last_commit
                  + 1;
              changes = changes;
            }) group.now
            → Goes (H.disk host.old) (H.disk host.new)
            (Appends self.old.size self.old.name self.old.end_position self.old.last_commit
            changes) }
        ensures there { OnOk result (H.tells → (changes : List Change)
            → Spells group_format (record {
              name = self.old.name;
              number = self.old.last_commit
                  + 1;
              changes = changes;
            }) group.now
            → Arrives (H.disk host.old) (H.disk host.new)
            (Appended self.old.size self.old.name self.old.end_position self.old.last_commit
            changes)) }
        ensures ring { H.tells → HasRing self.old.size (H.disk host.new).seen }
        ensures elsewhere { H.tells → AgreeBut Log (H.disk host.old).seen (H.disk host.new).seen }
        // The faults.
        ensures later { H.faults host.old ≤ H.faults host.new }
        ensures cause { result ≡ Err RingFault.Failed
            → Rose (H.faults host.old) (H.faults host.new) }
        ensures say_faults { H.say_faults host.new ≡ H.say_faults host.old }
    {
        self.refusal(group.len() as u64)?;
        let Ok(()) = append_closed(host, self.size, self.end_position, group.closed()) else {
            return Err(RingFault::Failed);
        };
        self.end_position += group.len() as u64;
        self.last_commit += 1;
        Ok(())
    }

    /// A restart begins to read at this position from now on, which is the end of a group, not below
    /// the present one: a savepoint has the commits before it. Nothing is written.
    pub fn set_redo_from(&mut self, position: u64)
        requires order { InOrder self.old }
        requires later { self.old.redo_position ≤ position }
        requires within { position ≤ self.old.end_position }
        ensures moved { self.new ≡ record self.old { redo_position = position } }
        ensures order { InOrder self.new }
    {
        self.redo_position = position;
    }

    /// The log is saved by a backup up to this position from now on, which is the end of the group
    /// of this commit, not below the present one. Nothing is written.
    pub fn set_saved(&mut self, commit: u64, position: u64)
        requires order { InOrder self.old }
        requires later { self.old.saved_position ≤ position }
        requires within { position ≤ self.old.end_position }
        ensures moved { self.new
            ≡ record self.old { saved_position = position; saved_commit = commit } }
        ensures order { InOrder self.new }
    {
        self.saved_position = position;
        self.saved_commit = commit;
    }

    // Whether a group of so many bytes has room.
    fn refusal(&self, bytes: u64) -> Result<(), RingFault>
        requires order { InOrder self.now }
        requires small { bytes < 2 ^ 62 }
        ensures answer { AppendAnswer self.now.size
            (self.now.end_position - self.now.saved_position)
            (self.now.end_position - self.now.redo_position) bytes result }
        ensures not_failed { result ≡ Err RingFault.Failed → ⊥ }
    {
        let unsaved = self.end_position - self.saved_position;
        if self.size < unsaved + bytes + 1 {
            return Err(RingFault::Full {
                unsaved,
                size: self.size,
            });
        }
        let needed = self.end_position - self.redo_position;
        if self.size < needed + bytes + 1 {
            return Err(RingFault::Pinned);
        }
        Ok(())
    }
}

// Writes a group after its gate, with a closed gate after it, and then opens its gate.
fn append_closed<H: Host>(host: &mut H, size: u64, end: u64, closed: &[u8]) -> Result<(), Failed>
    requires size { IsRingSize size }
    requires low { end < 2 ^ 62 - 1 }
    requires some { 1 < length closed.now }
    requires fits { length closed.now ≤ size }
    requires ring { H.tells → HasRing size (H.disk host.old).seen }
    ensures any_moment { H.tells → (name : Name) (last : ℕ) (changes : List Change) (group : List ℕ)
        → closed.now ≡ group ++ 0 ∷ []
        → Spells group_format (record { name = name; number = last + 1; changes = changes }) group
        → Goes (H.disk host.old) (H.disk host.new) (Appends size name end last changes) }
    ensures there { OnOk result (H.tells
        → (name : Name) (last : ℕ) (changes : List Change) (group : List ℕ)
        → closed.now ≡ group ++ 0 ∷ []
        → Spells group_format (record { name = name; number = last + 1; changes = changes }) group
        → Arrives (H.disk host.old) (H.disk host.new) (Appended size name end last changes)) }
    ensures ring { H.tells → HasRing size (H.disk host.new).seen }
    ensures elsewhere { H.tells → AgreeBut Log (H.disk host.old).seen (H.disk host.new).seen }
    ensures cause { HasCause (H.faults host.old) (H.faults host.new) result }
    ensures say_faults { H.say_faults host.new ≡ H.say_faults host.old }
{
    write_ring_kept(host, size, end + 1, &closed[1..])?;
    write_ring_kept(host, size, end, &[OPEN_GATE])
}
