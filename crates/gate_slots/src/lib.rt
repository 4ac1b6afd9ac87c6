//! A record that is kept in two slots, one of which is in force.
#![tactic(auto)]

mod body;
mod choice;
mod fault;
mod gates;
mod place;
mod slots;

pub use body::SlotBody;
pub use fault::SlotFault;
pub use place::{Slot, SlotPlace};
pub use slots::Slots;
