//! The devices and the output.
ghost use Rattle.std.specs.Prelude.{◌≡◌, ◌⊎◌, ℕ, ◌+◌, ◌*◌, ◌≤◌, List, ◌++◌, length, take, Option, None, Some, replicate, IfOk, IfSome, OnOk, OnErr, get_or, ◌<◌};
ghost use Rattle.mdb_model.specs.Causes.{HasCause};
ghost use Rattle.mdb_model.specs.Images.{Image, size_of};
ghost use Rattle.mdb_host.specs.Disk.{
  Disk,
  Torn,
  Has,
  Agree,
  AgreeBut,
  Goes,
  Calls,
  Says,
  Creates,
  Removes,
  Synced,
  IsWithin,
  IsThere,
  page_count,
  SameSizes,
};

use mdb_model::fault::{Device, Failed};

/// The devices and the output of one database. The range of one `read` or `write` has at most 8,192
/// bytes. Where the host tells what it holds, a call names a device that is there (`make` one that
/// is absent), and a range ends within it: so no caller can bring about a failure by misuse.
pub trait Host {
    /// Whether the host tells what it holds.
    ghost tells: { Type 0 };

    /// What it tells.
    ghost disk: { Self → Disk };

    /// How often a call on a device has failed.
    ghost faults: { Self → ℕ };

    /// How often `say` has failed.
    ghost say_faults: { Self → ℕ };

    /// The pages of a device, of 8,192 bytes each, or `None` where it is absent.
    fn size(&self, device: Device) -> Option<u64>
        ensures pages { tells → result ≡ page_count ((disk self.now).seen device) }
        ensures whole { tells → IfSome result (λ n. size_of ((disk self.now).seen device)
            ≡ Some (n * 8192)) };

    /// Fills `into` from byte `at` of a device on.
    fn read(&mut self, device: Device, at: u64, into: &mut [u8]) -> Result<(), Failed>
        requires bounded { length into.old ≤ 8192 }
        requires within { tells → IsWithin (disk self.old).seen device at (length into.old) }
        ensures bytes { OnOk result (tells → Has (disk self.old).seen device at into.new) }
        ensures calls { tells → Calls (disk self.old) (disk self.new) Agree }
        ensures tick { OnOk result (tells → (disk self.new).now ≡ (disk self.old).now + 1) }
        ensures cause { HasCause (faults self.old) (faults self.new) result }
        ensures say_faults { say_faults self.new ≡ say_faults self.old };

    /// Writes over the bytes of a device from `at` on. Until a sync, a crash may leave any bytes
    /// there; after a failed call, a read may give any.
    fn write(&mut self, device: Device, at: u64, from: &[u8]) -> Result<(), Failed>
        requires bounded { length from.now ≤ 8192 }
        requires within { tells → IsWithin (disk self.old).seen device at (length from.now) }
        ensures calls { tells → Calls (disk self.old) (disk self.new)
            (Torn device at (length from.now)) }
        ensures written { OnOk result (tells → Has (disk self.new).seen device at from.now) }
        ensures tick { OnOk result (tells → (disk self.new).now ≡ (disk self.old).now + 1) }
        ensures cause { HasCause (faults self.old) (faults self.new) result }
        ensures say_faults { say_faults self.new ≡ say_faults self.old };

    /// After it, a crash leaves of the device what a read gives. A failed call changes nothing.
    fn sync(&mut self, device: Device) -> Result<(), Failed>
        requires { tells → IsThere (disk self.old).seen device }
        ensures calls { tells → Calls (disk self.old) (disk self.new) Agree }
        ensures synced { OnOk result (tells → Synced (disk self.new) device) }
        ensures tick { OnOk result (tells → (disk self.new).now ≡ (disk self.old).now + 1) }
        ensures cause { HasCause (faults self.old) (faults self.new) result }
        ensures say_faults { say_faults self.new ≡ say_faults self.old };

    /// Makes a device that is absent, with zero bytes. After a failed call it is absent or there.
    fn make(&mut self, device: Device, pages: u32) -> Result<(), Failed>
        requires { tells → (disk self.old).seen device ≡ None }
        ensures calls { tells → Calls (disk self.old) (disk self.new)
            (Creates device (8192 * pages)) }
        ensures made { OnOk result (tells
            → (disk self.new).seen device ≡ Some (replicate (8192 * pages) 0)) }
        ensures tick { OnOk result (tells → (disk self.new).now ≡ (disk self.old).now + 1) }
        ensures cause { HasCause (faults self.old) (faults self.new) result }
        ensures say_faults { say_faults self.new ≡ say_faults self.old };

    /// Takes a device away. After a failed call it is there as it was, or absent.
    fn remove(&mut self, device: Device) -> Result<(), Failed>
        requires { tells → IsThere (disk self.old).seen device }
        ensures calls { tells → Calls (disk self.old) (disk self.new) (Removes device) }
        ensures removed { OnOk result (tells → (disk self.new).seen device ≡ None) }
        ensures tick { OnOk result (tells → (disk self.new).now ≡ (disk self.old).now + 1) }
        ensures cause { HasCause (faults self.old) (faults self.new) result }
        ensures say_faults { say_faults self.new ≡ say_faults self.old };

    /// Adds to the output, or a front part of it.
    fn say(&mut self, text: &[u8]) -> Result<(), Failed>
        ensures says { tells → Says (disk self.old) (disk self.new) text.now }
        ensures said { OnOk result (tells
            → (disk self.new).said (disk self.new).now ≡ (disk self.old).said (disk self.old).now
            ++ text.now) }
        ensures tick { OnOk result (tells → (disk self.new).now ≡ (disk self.old).now + 1) }
        ensures cause { HasCause (say_faults self.old) (say_faults self.new) result }
        ensures faults { faults self.new ≡ faults self.old };

    /// What a read gives is one of the images that a crash may leave now.
    ghost seen_left: { (host : Self) → tells
        → (disk host).may_leave (disk host).now (disk host).seen };

    /// Each image has the sizes that `size` answers.
    ghost sizes: { (host : Self) (image : Image) → tells
        → (disk host).may_leave (disk host).now image
        → SameSizes (disk host).seen image };
}

/// Writes, and makes the device keep it.
pub fn write_kept<H: Host>(host: &mut H, device: Device, at: u64, from: &[u8]) -> Result<(), Failed>
    requires bounded { length from.now ≤ 8192 }
    requires within { H.tells → IsWithin (H.disk host.old).seen device at (length from.now) }
    ensures goes { H.tells → Goes (H.disk host.old) (H.disk host.new)
        (Torn device at (length from.now)) }
    ensures seen { H.tells → Torn device at (length from.now) (H.disk host.old).seen
        (H.disk host.new).seen }
    ensures kept { OnOk result (H.tells → (image : Image)
        → (H.disk host.new).may_leave (H.disk host.new).now image → Has image device at from.now) }
    ensures cause { HasCause (H.faults host.old) (H.faults host.new) result }
    ensures say_faults { H.say_faults host.new ≡ H.say_faults host.old }
{
    host.write(device, at, from)?;
    host.sync(device)
}
