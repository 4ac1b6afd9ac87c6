//! Room for the bytes of one group.
ghost use Rattle.std.specs.Prelude.{◌≡◌, ◌+◌, ◌<◌, ◌≤◌, [], ◌∷◌, ◌++◌, length, take, slice_index, IfOk};
ghost use Rattle.mdb_bytes.specs.Groups.{longest_group};

use mdb_model::fault::Memory;
use mdb_model::limits::LONGEST_GROUP;
use std::alloc::Global;
use std::marker::Model;
/// The bytes of one group, at most 1,048,576. Only `new` takes memory.
#[derive(Drop)]
pub struct GroupBuf {
    // the group, a zero, and room
    room: Vec<u8>,
    len: usize,
}

impl Model for GroupBuf {
    ghost use Rattle.std.specs.Prelude.{◌≡◌, ◌≤◌, List, ℕ, length, take, slice_index};

    ghost Value = { List ℕ };

    ghost view = { λ a. take a.len a.room.items };

    ghost invariant = { λ a. (length a.room.items ≡ 1048577) × (a.len ≤ 1048576)
        × (slice_index a.room.items a.len ≡ 0) };
}

// So many zeros.
fn zeros(alloc: Global, count: usize) -> Result<Vec<u8>, Memory>
    ensures len { IfOk result (λ v. length v.items ≡ count) }
    ensures first { IfOk result (λ v. slice_index v.items 0 ≡ 0) }
{
    match vec![in alloc; 0; count] {
        Ok(zeros) => Ok(zeros),
        Err(_) => Err(Memory),
    }
}

// Writes bytes from a place on, and a zero after them.
fn put_at(room: &mut [u8], place: usize, bytes: &[u8])
    requires { place + length bytes.now < length room.old }
    ensures front { take (place + length bytes.now) room.new ≡ take place room.old ++ bytes.now }
    ensures zero { slice_index room.new (place + length bytes.now) ≡ 0 }
    ensures len { length room.new ≡ length room.old }
{
    let end = place + bytes.len();
    room[place..end].copy_from_slice(bytes);
    room[end] = 0;
}

impl GroupBuf {
    /// Room for a group, empty.
    pub fn new(alloc: Global) -> Result<GroupBuf, Memory>
        ensures { IfOk result (λ buf. buf ≡ []) }
    {
        let room = zeros(alloc, LONGEST_GROUP + 1)?;
        Ok(GroupBuf { room, len: 0 })
    }

    /// How many bytes there are.
    pub fn len(&self) -> usize
        ensures len { result ≡ length self.now }
        ensures most { length self.now ≤ longest_group }
    {
        self.len
    }

    /// The bytes.
    pub fn bytes(&self) -> &[u8]
        ensures bytes { result.now ≡ self.now }
        ensures most { length self.now ≤ longest_group }
    {
        &self.room[..self.len]
    }

    /// The bytes and a closed gate after them.
    pub fn closed(&self) -> &[u8]
        ensures bytes { result.now ≡ self.now ++ 0 ∷ [] }
        ensures most { length self.now ≤ longest_group }
    {
        &self.room[..self.len + 1]
    }

    /// Lets the bytes go, and keeps the room.
    pub fn clear(&mut self)
        ensures { self.new ≡ [] }
    {
        self.room[0] = 0;
        self.len = 0;
    }

    /// Puts bytes after those that are there.
    pub fn append(&mut self, bytes: &[u8])
        requires { length self.old + length bytes.now ≤ longest_group }
        ensures { self.new ≡ self.old ++ bytes.now }
    {
        put_at(&mut self.room, self.len, bytes);
        self.len += bytes.len();
    }
}
