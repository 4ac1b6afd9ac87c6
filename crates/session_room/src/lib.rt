//! What the changes of sessions need of the data area.
#![tactic(auto)]

mod laws;

pub use laws::{
    a_commit_has_room, a_commit_needs_no_more, a_rollback_needs_no_more, locked_changes_are_apart,
};
