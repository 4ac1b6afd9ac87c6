//! Media: a header with a gate, and the pages of one backup behind it.
#![tactic(auto)]

mod ended;
mod fault;
mod laws;
mod listing;
mod reading;
mod writer;

pub use ended::{data_ended, log_ended};
pub use fault::{HeaderFault, MediumFault};
pub use laws::what_was_sealed_is_read;
pub use listing::list_next;
pub use reading::{header, page};
pub use writer::{MediumWriter, begin};
