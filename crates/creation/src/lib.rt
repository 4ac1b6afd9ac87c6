//! Making a database: its devices, the pages of its first savepoint, and its records.
#![tactic(auto)]

mod area;
mod devices;
mod limits;
mod making;
mod pages;
mod slots;

pub use devices::sync_devices;
pub use limits::can_create;
pub use making::{CreateFault, create};
