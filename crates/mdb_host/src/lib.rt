//! The outside: devices of bytes, an output and a script, with what a crash at any moment may leave
//! of them.
#![tactic(auto)]

mod call;
mod devices;
mod faults;
mod files;
mod folder;
mod host;
mod keep;
mod lock;
mod mem_source;
mod memory;
mod paths;
mod plan;
mod replay;
mod source;
mod std_source;

pub use files::FileHost;
pub use host::{Host, write_kept};
pub use lock::TryLock;
pub use mdb_model::fault::{Device, Failed};
pub use mem_source::MemSource;
pub use memory::MemHost;
pub use source::Source;
pub use std_source::StdSource;
