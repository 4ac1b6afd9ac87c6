//! The lines of sessions, over any keeper of rows: reads, changes and scans, each answered as the
//! machine answers it.
#![tactic(auto)]

mod changing;
mod reading;
mod replies;
mod room;
mod scanning;

pub use changing::{del_row, give_up, put_row};
pub use reading::get_row;
pub use room::Room;
pub use scanning::{next_seen, open_scan};
