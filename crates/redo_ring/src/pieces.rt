//! Bytes of the ring, which a read or a write may take over its last byte to its first.
ghost use Rattle.std.specs.Prelude.{◌≡◌, ◌⊎◌, ℕ, ◌+◌, ◌*◌, ◌≤◌, ◌<◌, ◌^◌, List, length, IfOk, OnOk, get_or, take};
ghost use Rattle.mdb_model.specs.Causes.{HasCause};
ghost use Rattle.mdb_model.specs.Images.{Image};
ghost use Rattle.mdb_host.specs.Disk.{Disk};
ghost use Rattle.mdb_host.specs.Reads.{ReadsOnly};
ghost use Rattle.mdb_bytes.specs.Rings.{HasRing, ring_byte};
ghost use Rattle.redo_ring.specs.Ring.{HasBytesAt};
ghost use Rattle.redo_ring.specs.Writes.{WritesRing};

use mdb_host::{Device, Failed, Host};

// Writes as many of the bytes as one call takes and the ring's last byte allows.
fn write_piece<H: Host>(
    host: &mut H,
    size: u64,
    position: u64,
    bytes: &[u8],
) -> Result<usize, Failed>
    requires size { 0 < size }
    requires small { size < 2 ^ 62 }
    requires fits { length bytes.now ≤ size }
    requires some { 0 < length bytes.now }
    requires ring { H.tells → HasRing size (H.disk host.old).seen }
    ensures count { IfOk result (λ n. (0 < n) × (n ≤ length bytes.now)) }
    ensures writes { WritesRing H.Host size position (length bytes.now) host.old host.new }
    ensures written { IfOk result (λ n. H.tells → (i : ℕ) → i < n
        → ring_byte size (H.disk host.new).seen (position + i) ≡ get_or bytes.now i 0) }
    ensures cause { HasCause (H.faults host.old) (H.faults host.new) result }
{
    let at = position % size;
    let n = piece_len(size, at, bytes.len());
    host.write(Device::Log, 16384 + at, &bytes[..n])?;
    Ok(n)
}

fn piece_len(size: u64, at: u64, len: usize) -> usize
    requires { at < size }
    ensures one_call { result ≤ 8192 }
    ensures no_turn { at + result ≤ size }
    ensures no_longer { result ≤ len }
    ensures some { 0 < len → 0 < result }
    ensures most { result < len → result < 8192 → at + result ≡ size }
{
    let room = size - at;
    let count = len.min(8192);
    if (count as u64) < room {
        count
    } else {
        room as usize
    }
}

/// Writes bytes of the ring, piece by piece.
pub(crate) fn write_ring<H: Host>(
    host: &mut H,
    size: u64,
    position: u64,
    bytes: &[u8],
) -> Result<(), Failed>
    requires size { 0 < size }
    requires small { size < 2 ^ 62 }
    requires low { position < 2 ^ 62 }
    requires fits { length bytes.now ≤ size }
    requires ring { H.tells → HasRing size (H.disk host.old).seen }
    ensures writes { WritesRing H.Host size position (length bytes.now) host.old host.new }
    ensures written { OnOk result (H.tells
        → HasBytesAt (ring_byte size (H.disk host.new).seen) position bytes.now) }
    ensures cause { HasCause (H.faults host.old) (H.faults host.new) result }
{
    let mut done = 0;
    while done < bytes.len() {
        done += write_piece(host, size, position + done as u64, &bytes[done..])?;
    }
    Ok(())
}

/// Writes bytes of the ring, and makes the log volume keep them.
pub(crate) fn write_ring_kept<H: Host>(
    host: &mut H,
    size: u64,
    position: u64,
    bytes: &[u8],
) -> Result<(), Failed>
    requires size { 0 < size }
    requires small { size < 2 ^ 62 }
    requires low { position < 2 ^ 62 }
    requires fits { length bytes.now ≤ size }
    requires ring { H.tells → HasRing size (H.disk host.old).seen }
    ensures writes { WritesRing H.Host size position (length bytes.now) host.old host.new }
    ensures kept { OnOk result (H.tells → (image : Image)
        → (H.disk host.new).may_leave (H.disk host.new).now image
        → HasBytesAt (ring_byte size image) position bytes.now) }
    ensures cause { HasCause (H.faults host.old) (H.faults host.new) result }
{
    write_ring(host, size, position, bytes)?;
    host.sync(Device::Log)
}

/// Reads bytes of the ring into the whole of `into`.
pub(crate) fn read_ring<H: Host>(
    host: &mut H,
    size: u64,
    position: u64,
    into: &mut [u8],
) -> Result<(), Failed>
    requires long { 8192 ≤ size }
    requires small { size < 2 ^ 62 }
    requires one_call { length into.old ≤ 8192 }
    requires ring { H.tells → HasRing size (H.disk host.old).seen }
    ensures reads { ReadsOnly H.Host host.old host.new }
    ensures bytes { OnOk result (H.tells
        → HasBytesAt (ring_byte size (H.disk host.old).seen) position into.new) }
    ensures cause { HasCause (H.faults host.old) (H.faults host.new) result }
{
    let at = position % size;
    let (front, rest) = into.split_at_mut(piece_len(size, at, into.len()));
    host.read(Device::Log, 16384 + at, front)?;
    if rest.is_empty() {
        return Ok(());
    }
    host.read(Device::Log, 16384, rest)
}
