//! A backup of the pages of a savepoint: they are copied to a medium in turns, and then it is
//! sealed.
#![tactic(auto)]

mod frozen;
mod laws;
mod run;

pub use frozen::FrozenPages;
pub use laws::all_pages_are_copied;
pub use run::{BackupRun, copy_turn, finish};
