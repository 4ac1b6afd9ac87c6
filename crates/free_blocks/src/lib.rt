//! Which blocks of an area are free, and which marks each has.
#![tactic(auto)]

mod free;
mod marks;

pub use free::FreeBlocks;
pub use marks::Marks;
