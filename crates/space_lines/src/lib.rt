//! The lines of sessions that change rows, counted by the space rule.
#![tactic(auto)]

mod changing;
mod ending;
mod laws;
mod weighing;

pub use changing::{del_row, put_row};
pub use ending::{end_commit, give_up, info_need};
pub use laws::{
    a_counted_commit_has_room, a_lock_leaves_it_counted, a_read_leaves_it_counted,
    a_world_without_sessions_is_counted, the_need_is_counted,
};
