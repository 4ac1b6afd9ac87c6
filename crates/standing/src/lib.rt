//! When an image stands for a world, and what keeps that so at the two moments at which a kernel in
//! service changes what images show: a commit is appended to the log, and a savepoint switches the
//! restart record.
#![tactic(auto)]

mod append;
mod laws;
mod room;
mod savepoint;

pub use append::{a_commit_stands, an_append_shows, an_append_stands};
pub use laws::{a_blank_medium_comes_and_goes, a_new_database_stands, showing_is_enough};
pub use room::{
    a_savepoint_keeps_room, admitted_is_redone, costs_tell_room, history_is_not_enough,
    room_with_undo_is_lost, tables_have_room,
};
pub use savepoint::{
    a_saved_point_stays, a_savepoint_stands, a_switch_shows, an_idle_savepoint_stands,
    an_untold_point_moves,
};
