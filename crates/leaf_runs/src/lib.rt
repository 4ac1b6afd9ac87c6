//! Tables as lists of leaves over pages.
#![tactic(auto)]

mod catalogue;
mod changing;
mod editing;
mod leaf;
mod pairs;
mod placing;
mod reading;
mod runs;
mod settling;
mod writing;

pub use changing::{del, put};
pub use reading::{get, pages, scan_next};
pub use runs::Runs;
