//! Where slots stand.
ghost use Rattle.std.specs.Prelude.{◌≡◌, ◌+◌, ◌<◌, ◌^◌};
ghost use Rattle.gate_slots.specs.Slots.{other_of, slot_start};

use mdb_model::fault::Device;

/// One of two slots.
#[derive(Clone, Copy, Debug, PartialEq, Eq)]
pub enum Slot {
    First,
    Second,
}

/// Where two slots stand: a page of a device, and the page after it.
#[derive(Clone, Copy, Debug, PartialEq, Eq)]
pub struct SlotPlace {
    /// `Data(1)`, whose slots hold restart records, or `Log`, whose slots hold log infos.
    pub device: Device,
    /// The page of the first slot.
    pub page: u64,
}

impl Slot {
    /// The slot beside it.
    pub fn other(self) -> Slot
        ensures { result ≡ other_of self }
    {
        match self {
            Slot::First => Slot::Second,
            Slot::Second => Slot::First,
        }
    }
}

impl SlotPlace {
    // The byte of the device at which a slot begins.
    pub(crate) fn start(self, slot: Slot) -> u64
        requires { self.page < 2 ^ 32 }
        ensures { result ≡ slot_start self slot }
    {
        match slot {
            Slot::First => 8192 * self.page,
            Slot::Second => 8192 * (self.page + 1),
        }
    }

    // The byte of its gate.
    pub(crate) fn gate(self, slot: Slot) -> u64
        requires { self.page < 2 ^ 32 }
        ensures { result ≡ slot_start self slot + 8191 }
    {
        self.start(slot) + 8191
    }
}
