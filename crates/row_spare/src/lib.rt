//! What rows that have room leave spare in a store.
#![tactic(auto)]

mod laws;

pub use laws::{live_pages_are_counted, rows_with_room_leave_spare};
