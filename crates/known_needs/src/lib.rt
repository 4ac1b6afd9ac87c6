//! What the space rule knows needs as much as the world. Its functions do nothing: their contracts
//! are the laws.
#![tactic(auto)]

mod laws;

pub use laws::{
    a_commit_is_known, a_noted_change_is_known, a_rollback_is_known, nothing_is_known_at_first,
    pages_are_known, rows_that_fit_are_few, undo_is_known, what_is_known_is_needed,
    what_is_loaded_is_known,
};
