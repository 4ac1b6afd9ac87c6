//! Rows on the pages of a store, and the log on its devices.
#![tactic(auto)]

mod ground;
mod log_redo;
mod saving;
mod set_point;
mod setting;

pub use ground::PageGround;
pub use log_redo::redo_log;
pub use set_point::SetPoint;
pub use setting::set_group;
