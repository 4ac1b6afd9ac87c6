//! Backups of the log: the groups of its commits, packed into the pages of a medium.
#![tactic(auto)]

mod backing;
mod packing;
mod saving;

pub use backing::backup_log;
pub use saving::save;
