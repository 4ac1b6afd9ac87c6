//! The calls on one slot: its gate and its body.
ghost use Rattle.std.specs.Prelude.{◌≡◌, ◌+◌, ◌*◌, ◌==◌, IfOk, IfSome, OnOk, Some};
ghost use Rattle.mdb_model.specs.Causes.{HasCause};
ghost use Rattle.mdb_model.specs.Images.{Image};
ghost use Rattle.mdb_host.specs.Disk.{Disk, Goes, Arrives, Agree, Torn, IsWithin};
ghost use Rattle.mdb_host.specs.Reads.{ReadsOnly};
ghost use Rattle.mdb_bytes.specs.Groups.{open_gate};
ghost use Rattle.mdb_bytes.specs.SlotRecords.{slot_len};
ghost use Rattle.gate_slots.specs.declared.place.Slot.TheVariants.{First, Second};
ghost use Rattle.gate_slots.specs.Slots.{slot_start, gate_in, body_in, decoded_body, IsSlotPlace, IsFor, KeepsBody};
ghost use Rattle.gate_slots.specs.Choice.{IsPageOf, HasKept};
ghost use Rattle.gate_slots.specs.Steps.{SlotsTorn, Closes, Empties, Replaces, Replaced};

use crate::body::{SlotBody, decode_body};
use crate::place::{Slot, SlotPlace};
use mdb_host::{Failed, Host, write_kept};
use mdb_model::limits::{CLOSED_GATE, OPEN_GATE};
/// What a read of a slot gives: whether its gate is open, and the record that its body spells.
#[derive(Drop)]
pub(crate) struct SlotPage {
    pub(crate) is_open: bool,
    pub(crate) body: Option<SlotBody>,
}

/// Whether the gate of a slot is open.
fn read_gate<H: Host>(host: &mut H, place: SlotPlace, slot: Slot) -> Result<bool, Failed>
    requires place { IsSlotPlace place }
    requires within { H.tells → IsWithin (H.disk host.old).seen place.device (8192 * place.page)
        16384 }
    ensures reads { ReadsOnly H.Host host.old host.new }
    ensures gate { IfOk result (λ is_open. H.tells
        → is_open ≡ (gate_in (H.disk host.old).seen place slot == open_gate)) }
    ensures cause { HasCause (H.faults host.old) (H.faults host.new) result }
{
    let mut gate = [CLOSED_GATE];
    host.read(place.device, place.gate(slot), &mut gate)?;
    Ok(gate[0] == OPEN_GATE)
}

/// Whether the gates of both slots are open.
pub(crate) fn read_gates<H: Host>(host: &mut H, place: SlotPlace) -> Result<(bool, bool), Failed>
    requires place { IsSlotPlace place }
    requires within { H.tells → IsWithin (H.disk host.old).seen place.device (8192 * place.page)
        16384 }
    ensures reads { ReadsOnly H.Host host.old host.new }
    ensures first { IfOk result (λ are_open. H.tells
        → are_open.0 ≡ (gate_in (H.disk host.old).seen place First == open_gate)) }
    ensures second { IfOk result (λ are_open. H.tells
        → are_open.1 ≡ (gate_in (H.disk host.old).seen place Second == open_gate)) }
    ensures cause { HasCause (H.faults host.old) (H.faults host.new) result }
{
    let first = read_gate(host, place, Slot::First)?;
    let second = read_gate(host, place, Slot::Second)?;
    Ok((first, second))
}

/// The whole of a slot.
pub(crate) fn read_slot<H: Host>(
    host: &mut H,
    place: SlotPlace,
    slot: Slot,
) -> Result<SlotPage, Failed>
    requires place { IsSlotPlace place }
    requires within { H.tells → IsWithin (H.disk host.old).seen place.device (8192 * place.page)
        16384 }
    ensures reads { ReadsOnly H.Host host.old host.new }
    ensures page { IfOk result (λ page. H.tells → IsPageOf (H.disk host.old).seen place slot page) }
    ensures kept { IfOk result (HasKept place.device) }
    ensures cause { HasCause (H.faults host.old) (H.faults host.new) result }
{
    let mut page = [0u8; 8192];
    host.read(place.device, place.start(slot), &mut page)?;
    let (body, gate) = page.split_at(8191);
    Ok(SlotPage {
        is_open: gate[0] == OPEN_GATE,
        body: decode_body(place.device, body),
    })
}

/// Both slots.
pub(crate) fn read_slots<H: Host>(
    host: &mut H,
    place: SlotPlace,
) -> Result<(SlotPage, SlotPage), Failed>
    requires place { IsSlotPlace place }
    requires within { H.tells → IsWithin (H.disk host.old).seen place.device (8192 * place.page)
        16384 }
    ensures reads { ReadsOnly H.Host host.old host.new }
    ensures first { IfOk result (λ pages. H.tells
        → IsPageOf (H.disk host.old).seen place First pages.0) }
    ensures second { IfOk result (λ pages. H.tells
        → IsPageOf (H.disk host.old).seen place Second pages.1) }
    ensures kept { IfOk result (λ pages. HasKept place.device pages.0
        × HasKept place.device pages.1) }
    ensures cause { HasCause (H.faults host.old) (H.faults host.new) result }
{
    let first = read_slot(host, place, Slot::First)?;
    let second = read_slot(host, place, Slot::Second)?;
    Ok((first, second))
}

/// Closes the gate of a slot that is known to be open, and makes the device keep it.
fn close_gate<H: Host>(
    host: &mut H,
    place: SlotPlace,
    slot: Slot,
    is_open: bool,
) -> Result<(), Failed>
    requires place { IsSlotPlace place }
    requires within { H.tells → IsWithin (H.disk host.old).seen place.device (8192 * place.page)
        16384 }
    ensures goes { H.tells → Goes (H.disk host.old) (H.disk host.new) (Closes place slot is_open) }
    ensures seen { H.tells → SlotsTorn place (H.disk host.old).seen (H.disk host.new).seen }
    ensures shut { OnOk result (H.tells → Arrives (H.disk host.old) (H.disk host.new)
        (Empties place slot is_open)) }
    ensures cause { HasCause (H.faults host.old) (H.faults host.new) result }
    ensures say_faults { H.say_faults host.new ≡ H.say_faults host.old }
{
    if is_open {
        return write_kept(host, place.device, place.gate(slot), &[CLOSED_GATE]);
    }
    Ok(())
}

/// Writes the body of a slot, and makes the device keep it.
fn write_body<H: Host>(
    host: &mut H,
    place: SlotPlace,
    slot: Slot,
    body: &SlotBody,
) -> Result<(), Failed>
    requires place { IsSlotPlace place }
    requires kind { IsFor place.device body.now }
    requires keeps { KeepsBody body.now }
    requires within { H.tells → IsWithin (H.disk host.old).seen place.device (8192 * place.page)
        16384 }
    ensures goes { H.tells → Goes (H.disk host.old) (H.disk host.new)
        (Torn place.device (slot_start place slot) slot_len) }
    ensures seen { H.tells → SlotsTorn place (H.disk host.old).seen (H.disk host.new).seen }
    ensures kept { OnOk result (H.tells → (image : Image)
        → (H.disk host.new).may_leave (H.disk host.new).now image
        → decoded_body place.device (body_in image place slot) ≡ Some body.now) }
    ensures cause { HasCause (H.faults host.old) (H.faults host.new) result }
    ensures say_faults { H.say_faults host.new ≡ H.say_faults host.old }
{
    let mut bytes = [0u8; 8191];
    body.encode(&mut bytes);
    write_kept(host, place.device, place.start(slot), &bytes)
}

/// Opens the gate of a slot, and makes the device keep it.
fn open_slot<H: Host>(host: &mut H, place: SlotPlace, slot: Slot) -> Result<(), Failed>
    requires place { IsSlotPlace place }
    requires within { H.tells → IsWithin (H.disk host.old).seen place.device (8192 * place.page)
        16384 }
    ensures goes { H.tells → Goes (H.disk host.old) (H.disk host.new)
        (Torn place.device (slot_start place slot + slot_len) 1) }
    ensures seen { H.tells → SlotsTorn place (H.disk host.old).seen (H.disk host.new).seen }
    ensures kept { OnOk result (H.tells → (image : Image)
        → (H.disk host.new).may_leave (H.disk host.new).now image
        → gate_in image place slot ≡ open_gate) }
    ensures cause { HasCause (H.faults host.old) (H.faults host.new) result }
    ensures say_faults { H.say_faults host.new ≡ H.say_faults host.old }
{
    write_kept(host, place.device, place.gate(slot), &[OPEN_GATE])
}

/// Puts a record in one slot: closes its gate where it is open, writes the body, opens the gate.
/// After a fault of a device the slot does not count or holds this record; where it was open it may
/// also hold the record that it held.
pub(crate) fn replace<H: Host>(
    host: &mut H,
    place: SlotPlace,
    slot: Slot,
    is_open: bool,
    body: &SlotBody,
) -> Result<(), Failed>
    requires place { IsSlotPlace place }
    requires kind { IsFor place.device body.now }
    requires keeps { KeepsBody body.now }
    requires within { H.tells → IsWithin (H.disk host.old).seen place.device (8192 * place.page)
        16384 }
    ensures goes { H.tells → Goes (H.disk host.old) (H.disk host.new)
        (Replaces place slot is_open body.now) }
    ensures seen { H.tells → SlotsTorn place (H.disk host.old).seen (H.disk host.new).seen }
    ensures there { OnOk result (H.tells
        → Arrives (H.disk host.old) (H.disk host.new) (Replaced place slot body.now)) }
    ensures cause { HasCause (H.faults host.old) (H.faults host.new) result }
    ensures say_faults { H.say_faults host.new ≡ H.say_faults host.old }
{
    close_gate(host, place, slot, is_open)?;
    write_body(host, place, slot, body)?;
    open_slot(host, place, slot)
}
