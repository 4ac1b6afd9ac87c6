//! The slots of one record. What holds of them between two calls that went well, in each image that
//! a crash may leave once the device is synced (`IsReady`), and of what was read (`HasBody`):
//!
//! 1. The number that is kept is that of the record in force.
//! 2. The gate of the current slot is open, and its body spells that record.
//! 3. The other slot does not count beside it: its gate is closed, or its body is no record, or one
//!    with a lower number, and in the second slot also with the same one. So it may be written
//!    without harm to the record in force.
//! 4. The slots stand at the place that was asked for.
//! 5. The record is of the kind that the device has, and keeps the limits of its format.
ghost use Rattle.std.specs.Prelude.{◌≡◌, ◌+◌, ◌*◌, ◌≤◌, true, Some, None, Err, IfOk, OnOk, OnErr};
ghost use Rattle.mdb_model.specs.Causes.{HasCause, Rose};
ghost use Rattle.mdb_model.specs.Images.{Image};
ghost use Rattle.mdb_host.specs.Disk.{Disk, Goes, Arrives, Agree, Synced, IsWithin};
ghost use Rattle.gate_slots.specs.Slots.{other_of, slot_number, in_force, IsReady, HasBody, IsSlotPlace, IsFor, KeepsBody};
ghost use Rattle.gate_slots.specs.Steps.{SlotsTorn, Switches, HasSwitched, Begins, Begun};
ghost use Rattle.gate_slots.specs.declared.place.Slot.TheVariants.{First};

use crate::body::SlotBody;
use crate::choice::choose;
use crate::fault::SlotFault;
use crate::gates::{read_gates, read_slots, replace};
use crate::place::{Slot, SlotPlace};
use mdb_host::{Failed, Host};

/// Which of two slots is in force, and what is known of the other.
#[derive(Clone, Copy, Debug, PartialEq, Eq)]
pub struct Slots {
    pub place: SlotPlace,
    /// The slot number of the record in force.
    pub number: u64,
    /// The slot that holds it.
    pub current: Slot,
    /// Whether the gate of the other slot is open.
    pub other_open: bool,
}

impl Slots {
    /// What is in force at a place, as a read gives it; of a device that is synced since its last
    /// write also as each image has it.
    pub fn read<H: Host>(host: &mut H, place: SlotPlace) -> Result<(Slots, SlotBody), SlotFault>
        requires place { IsSlotPlace place }
        requires within { H.tells → IsWithin (H.disk host.old).seen place.device (8192 * place.page)
            16384 }
        // The result.
        ensures ready { IfOk result (λ found. H.tells
            → IsReady found.0 found.1 (H.disk host.old).seen) }
        ensures force { IfOk result (λ found. H.tells
            → in_force (H.disk host.old).seen place ≡ Some found.1) }
        ensures synced { IfOk result (λ found. H.tells → Synced (H.disk host.old) place.device
            → (image : Image) → (H.disk host.new).may_leave (H.disk host.new).now image
            → IsReady found.0 found.1 image) }
        ensures found { IfOk result (λ found. HasBody place found.0 found.1) }
        ensures none { result ≡ Err SlotFault.NoSlot → H.tells
            → in_force (H.disk host.old).seen place ≡ None }
        // The devices.
        ensures calm { H.tells → Goes (H.disk host.old) (H.disk host.new) Agree }
        ensures seen { H.tells → Agree (H.disk host.old).seen (H.disk host.new).seen }
        // The faults.
        ensures later { H.faults host.old ≤ H.faults host.new }
        ensures cause { result ≡ Err SlotFault.Failed
            → Rose (H.faults host.old) (H.faults host.new) }
        ensures say_faults { H.say_faults host.new ≡ H.say_faults host.old }
    {
        let Ok((first, second)) = read_slots(host, place) else {
            return Err(SlotFault::Failed);
        };
        let Some(found) = choose(place, first, second) else {
            return Err(SlotFault::NoSlot);
        };
        Ok(found)
    }

    /// Puts the first record in force, in the first slot: closes its gate where it is open, writes
    /// the body, opens the gate, each with a sync after it. The second slot is left as it is.
    /// After a fault of a device the record is in force or not, until the slots are read.
    pub fn first<H: Host>(host: &mut H, place: SlotPlace, body: &SlotBody) -> Result<Slots, Failed>
        requires place { IsSlotPlace place }
        requires kind { IsFor place.device body.now }
        requires keeps { KeepsBody body.now }
        requires number { slot_number body.now ≡ 1 }
        requires within { H.tells → IsWithin (H.disk host.old).seen place.device (8192 * place.page)
            16384 }
        // The devices.
        ensures any_moment { H.tells → Goes (H.disk host.old) (H.disk host.new)
            (Begins (H.disk host.old).seen place body.now) }
        ensures there { IfOk result (λ slots. H.tells
            → Arrives (H.disk host.old) (H.disk host.new)
            (Begun (H.disk host.old).seen slots body.now)) }
        // The result.
        ensures slots { IfOk result (λ slots. (slots.place ≡ place) × (slots.number ≡ 1)
            × (slots.current ≡ First)) }
        // The devices.
        ensures seen { H.tells → SlotsTorn place (H.disk host.old).seen (H.disk host.new).seen }
        // The faults.
        ensures cause { HasCause (H.faults host.old) (H.faults host.new) result }
        ensures say_faults { H.say_faults host.new ≡ H.say_faults host.old }
    {
        let (is_open, other_open) = read_gates(host, place)?;
        replace(host, place, Slot::First, is_open, body)?;
        Ok(Slots {
            place,
            number: 1,
            current: Slot::First,
            other_open,
        })
    }

    /// Puts the next record in force, in the slot that is not: closes its gate where it is open,
    /// writes the body, opens the gate, each with a sync after it. After a fault of a device the
    /// record that was in force still is, or the next one, until the slots are read; this value
    /// then is as it was, and no longer tells of them.
    pub fn switch<H: Host>(&mut self, host: &mut H, body: &SlotBody) -> Result<(), Failed>
        requires place { IsSlotPlace self.old.place }
        requires kind { IsFor self.old.place.device body.now }
        requires keeps { KeepsBody body.now }
        requires number { slot_number body.now ≡ self.old.number + 1 }
        requires within { H.tells → IsWithin (H.disk host.old).seen self.old.place.device
            (8192 * self.old.place.page) 16384 }
        // The devices.
        ensures any_moment { H.tells → Goes (H.disk host.old) (H.disk host.new)
            (Switches self.old body.now) }
        ensures there { OnOk result (H.tells
            → Arrives (H.disk host.old) (H.disk host.new) (HasSwitched self.old self.new body.now)) }
        // The result.
        ensures ok { OnOk result (self.new
            ≡ record self.old {
              number = self.old.number
                  + 1;
              current = other_of self.old.current;
              other_open = true;
            }) }
        ensures err { OnErr result (self.new ≡ self.old) }
        // The devices.
        ensures seen { H.tells → SlotsTorn self.old.place (H.disk host.old).seen
            (H.disk host.new).seen }
        // The faults.
        ensures cause { HasCause (H.faults host.old) (H.faults host.new) result }
        ensures say_faults { H.say_faults host.new ≡ H.say_faults host.old }
    {
        let slot = self.current.other();
        replace(host, self.place, slot, self.other_open, body)?;
        self.number = body.number();
        self.current = slot;
        self.other_open = true;
        Ok(())
    }
}
