//! Keys and values, seen as lists of bytes.
ghost use Rattle.std.specs.Prelude.{◌≡◌, ◌<◌, ◌≤◌, length, refl, nat_eq, [], Some, IfOk};
ghost use Rattle.std.specs.Cmp.{partial_equiv_from_equiv};
ghost use Rattle.std.specs.Cmp.Lexicographic.{pointwise, slice_cmp, nat_list_eq_equiv, nat_list_cmp_total, texts_po, texts_ties};
ghost use Rattle.std.specs.Ordering.{nat_cmp};

use crate::fault::Memory;
use arrayvec::ArrayVec;
use std::alloc::Global;
use std::cmp::Ordering;
use std::marker::Model;
use std::rc::Rc;

/// The bytes of a key that takes no memory.
pub type KeyBuf = ArrayVec<u8, 256>;

/// The bytes of a value that takes no memory.
pub type ValueBuf = ArrayVec<u8, 1500>;

/// A key, of 1 to 256 bytes.
#[derive(Drop)]
pub struct Key {
    bytes: Rc<Vec<u8>>,
}

impl Model for Key {
    ghost use Rattle.std.specs.Prelude.{List, ℕ, ◌<◌, ◌≤◌, length};

    ghost Value = { List ℕ };

    ghost view = { λ key. key.bytes.value.items };

    ghost invariant = { λ key. (0 < length key.bytes.value.items)
        × (length key.bytes.value.items ≤ 256) };
}

impl PartialEq for Key {
    ghost eq = { pointwise nat_eq };

    ghost laws = { partial_equiv_from_equiv nat_list_eq_equiv };

    fn eq(&self, other: &Key) -> bool {
        self.bytes() == other.bytes()
    }
}

impl Eq for Key {
    ghost laws = { nat_list_eq_equiv };
}

impl PartialOrd for Key {
    ghost partial_cmp = { λ a b. Some (slice_cmp nat_cmp a b) };

    ghost laws = { texts_po };

    fn partial_cmp(&self, other: &Key) -> Option<Ordering> {
        Some(self.cmp(other))
    }
}

/// Keys are ordered by their bytes.
impl Ord for Key {
    ghost cmp = { slice_cmp nat_cmp };

    ghost total = { nat_list_cmp_total };

    ghost matches_partial_cmp = { λ a b. refl };

    ghost matches_eq = { texts_ties };

    fn cmp(&self, other: &Key) -> Ordering {
        self.bytes().cmp(other.bytes())
    }
}

/// A value, of at most 1,500 bytes.
#[derive(Drop)]
pub struct Value {
    bytes: Rc<Vec<u8>>,
}

impl Model for Value {
    ghost use Rattle.std.specs.Prelude.{List, ℕ, ◌≤◌, length};

    ghost Value = { List ℕ };

    ghost view = { λ value. value.bytes.value.items };

    ghost invariant = { λ value. length value.bytes.value.items ≤ 1500 };
}

// The bytes, in memory that may be shared.
fn shared_bytes(alloc: Global, bytes: &[u8]) -> Result<Rc<Vec<u8>>, Memory>
    ensures { IfOk result (λ shared. shared.value.items ≡ bytes.now) }
{
    let Ok(bytes) = bytes.to_vec(alloc) else {
        return Err(Memory);
    };
    match Rc::new(alloc, bytes) {
        Ok(bytes) => Ok(bytes),
        Err(_) => Err(Memory),
    }
}

impl Key {
    /// A key of these bytes.
    pub fn new(alloc: Global, bytes: &[u8]) -> Result<Key, Memory>
        requires { (0 < length bytes.now) × (length bytes.now ≤ 256) }
        ensures { IfOk result (λ key. key ≡ bytes.now) }
    {
        let bytes = shared_bytes(alloc, bytes)?;
        Ok(Key { bytes })
    }

    /// Its bytes.
    pub fn bytes(&self) -> &[u8]
        ensures { result.now ≡ self.now }
    {
        self.bytes.as_slice()
    }

    /// The same key, in memory of its own.
    pub fn copy(&self, alloc: Global) -> Result<Key, Memory>
        ensures { IfOk result (λ key. key ≡ self.now) }
    {
        let bytes = shared_bytes(alloc, self.bytes.as_slice())?;
        Ok(Key { bytes })
    }

    /// The same key, in the same memory. It fails only where no more can be counted that share it.
    pub fn share(&self) -> Result<Key, Memory>
        ensures { IfOk result (λ key. key ≡ self.now) }
    {
        match self.bytes.clone() {
            Ok(bytes) => Ok(Key { bytes }),
            Err(_) => Err(Memory),
        }
    }

    /// The same bytes, in memory of the caller's.
    pub fn to_buf(&self) -> KeyBuf
        ensures { result ≡ record { items = self.now } }
    {
        let mut copied = KeyBuf::new();
        // There is room for every key, so it succeeds.
        let _ = copied.try_extend_from_slice(self.bytes.as_slice());
        copied
    }
}

impl Value {
    /// A value of these bytes.
    pub fn new(alloc: Global, bytes: &[u8]) -> Result<Value, Memory>
        requires { length bytes.now ≤ 1500 }
        ensures { IfOk result (λ value. value ≡ bytes.now) }
    {
        let bytes = shared_bytes(alloc, bytes)?;
        Ok(Value { bytes })
    }

    /// Its bytes.
    pub fn bytes(&self) -> &[u8]
        ensures { result.now ≡ self.now }
    {
        self.bytes.as_slice()
    }

    /// The same value, in the same memory. It fails only where no more can be counted that
    /// share it.
    pub fn share(&self) -> Result<Value, Memory>
        ensures { IfOk result (λ value. value ≡ self.now) }
    {
        match self.bytes.clone() {
            Ok(bytes) => Ok(Value { bytes }),
            Err(_) => Err(Memory),
        }
    }

    /// The same bytes, in memory of the caller's.
    pub fn to_buf(&self) -> ValueBuf
        ensures { result ≡ record { items = self.now } }
    {
        let mut copied = ValueBuf::new();
        // There is room for every value, so it succeeds.
        let _ = copied.try_extend_from_slice(self.bytes.as_slice());
        copied
    }
}

/// The value of a row that was found, in memory of its own, so that a reply is small to pass on.
#[derive(Drop)]
pub struct FoundValue {
    bytes: Box<ValueBuf>,
}

impl Model for FoundValue {
    ghost use Rattle.std.specs.Prelude.{List, ℕ};

    ghost Value = { List ℕ };

    ghost view = { λ found. found.bytes.value.items };
}

impl FoundValue {
    /// Memory for the value of a row, with no bytes in it yet.
    pub fn room(alloc: Global) -> Result<Box<ValueBuf>, Memory>
        ensures { IfOk result (λ room. room.value ≡ record { items = [] }) }
    {
        match Box::new(alloc, ValueBuf::new()) {
            Ok(room) => Ok(room),
            Err(_) => Err(Memory),
        }
    }

    /// The value whose bytes were read into the room.
    pub fn new(bytes: Box<ValueBuf>) -> FoundValue
        ensures { result ≡ bytes.value.items }
    {
        FoundValue { bytes }
    }

    /// Its bytes.
    pub fn bytes(&self) -> &[u8]
        ensures is { result.now ≡ self.now }
        ensures few { length result.now ≤ 1500 }
    {
        self.bytes.as_slice()
    }
}
