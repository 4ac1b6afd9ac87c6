//! Which of two slots counts.
ghost use Rattle.std.specs.Prelude.{◌≡◌, Some, None};
ghost use Rattle.gate_slots.specs.Slots.{slot_number};
ghost use Rattle.gate_slots.specs.Choice.{page_counts, Chooses};

use crate::body::SlotBody;
use crate::gates::SlotPage;
use crate::place::{Slot, SlotPlace};
use crate::slots::Slots;

impl SlotPage {
    // The record that counts.
    fn counted(self) -> Option<SlotBody>
        ensures { result ≡ page_counts self }
    {
        if self.is_open { self.body } else { None }
    }
}

// The slots with this record in force.
fn found_in(place: SlotPlace, current: Slot, other_open: bool, body: SlotBody) -> (Slots, SlotBody)
    ensures { result ≡ (
      record {
        place = place;
        number = slot_number body;
        current = current;
        other_open = other_open;
      },
      body,
    ) }
{
    let number = body.number();
    let slots = Slots {
        place,
        number,
        current,
        other_open,
    };
    (slots, body)
}

/// The slots with the record of two pages that counts; none where neither does.
pub(crate) fn choose(
    place: SlotPlace,
    first: SlotPage,
    second: SlotPage,
) -> Option<(Slots, SlotBody)>
    ensures { Chooses place first second result }
{
    let first_open = first.is_open;
    let second_open = second.is_open;
    match (first.counted(), second.counted()) {
        (None, None) => None,
        (Some(one), None) => Some(found_in(place, Slot::First, second_open, one)),
        (None, Some(other)) => Some(found_in(place, Slot::Second, first_open, other)),
        (Some(one), Some(other)) => {
            if one.number() < other.number() {
                Some(found_in(place, Slot::Second, first_open, other))
            } else {
                Some(found_in(place, Slot::First, second_open, one))
            }
        }
    }
}
