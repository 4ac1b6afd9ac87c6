//! The data area and the log of an open database: restart, commits and savepoints.
#![tactic(auto)]

mod area;
mod catching_up;
pub mod fault;
mod laws;
mod opening;
mod reading;

pub use area::LiveArea;
pub use fault::CommitFault;
pub use laws::{
    a_fresh_record_has_the_rows, a_world_that_stands, calls_keep_serving, media_come_and_go_beside,
    saying_keeps_serving, what_is_served,
};
