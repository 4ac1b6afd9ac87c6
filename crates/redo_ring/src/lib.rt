//! The cyclic log: groups of bytes, each after a gate that is opened once the group is kept.
#![tactic(auto)]

mod fault;
mod laws;
mod open;
mod pieces;
mod reader;
mod ring;
mod window;

pub use fault::RingFault;
pub use laws::a_later_beginning_is_due;
pub use open::LogStart;
pub use reader::RingReader;
pub use ring::Ring;
