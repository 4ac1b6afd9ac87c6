//! Which backups in a row can be restored, and up to which commit.
#![tactic(auto)]

mod fault;
mod laws;
mod links;
mod planning;
mod reached;

pub use fault::ChainFault;
pub use laws::chains_depend_on_numbers;
pub use links::{LogLink, Plan};
pub use planning::check;
