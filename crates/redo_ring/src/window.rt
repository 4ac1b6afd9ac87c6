//! A window of the ring, which is read at once and taken group by group.
ghost use Rattle.std.specs.Prelude.{◌≡◌, ◌≤◌, [], drop, length, OnOk};
ghost use Rattle.mdb_model.specs.Causes.{HasCause};
ghost use Rattle.mdb_host.specs.Disk.{Disk};
ghost use Rattle.mdb_host.specs.Reads.{ReadsOnly};
ghost use Rattle.mdb_bytes.specs.Rings.{HasRing, IsRingSize, ring_byte};
ghost use Rattle.redo_ring.specs.Ring.{HasBytesAt};

use crate::pieces::read_ring;
use mdb_host::{Failed, Host};
use std::marker::Model;
/// At most 8,192 bytes of the ring, which were read and are not yet taken.
#[derive(Drop)]
pub(crate) struct Window {
    bytes: [u8; 8192],
    // how many of them are taken
    taken: usize,
}

impl Model for Window {
    ghost use Rattle.std.specs.Prelude.{◌≤◌, List, ℕ, drop};

    ghost Value = { List ℕ };

    ghost view = { λ a. drop a.taken a.bytes };

    ghost invariant = { λ a. a.taken ≤ 8192 };
}

impl Window {
    /// A window with no bytes.
    pub(crate) fn new() -> Window
        ensures { result ≡ [] }
    {
        Window {
            bytes: [0; 8192],
            taken: 8192,
        }
    }

    /// The bytes that are not yet taken.
    pub(crate) fn rest(&self) -> &[u8]
        ensures { result.now ≡ self.now }
    {
        &self.bytes[self.taken..]
    }

    /// Takes so many bytes.
    pub(crate) fn pass(&mut self, count: usize)
        requires { count ≤ length self.old }
        ensures { self.new ≡ drop count self.old }
    {
        self.taken += count;
    }

    /// Takes all bytes.
    pub(crate) fn clear(&mut self)
        ensures { self.new ≡ [] }
    {
        self.taken = 8192;
    }

    /// Reads the 8,192 bytes of the ring from a position on; where that fails, there are no bytes.
    pub(crate) fn fill<H: Host>(
        &mut self,
        host: &mut H,
        size: u64,
        position: u64,
    ) -> Result<(), Failed>
        requires size { IsRingSize size }
        requires ring { H.tells → HasRing size (H.disk host.old).seen }
        ensures reads { ReadsOnly H.Host host.old host.new }
        ensures len { OnOk result (length self.new ≡ 8192) }
        ensures there { H.tells
            → HasBytesAt (ring_byte size (H.disk host.old).seen) position self.new }
        ensures cause { HasCause (H.faults host.old) (H.faults host.new) result }
    {
        self.clear();
        read_ring(host, size, position, &mut self.bytes)?;
        self.taken = 0;
        Ok(())
    }
}
