//! The data of the storage kernel, and in `specs/` what its contracts speak of.
#![tactic(auto)]

pub mod bytes;
pub mod change;
pub mod fault;
pub mod limits;
pub mod name;
pub mod say;
pub mod script;
pub mod status;
