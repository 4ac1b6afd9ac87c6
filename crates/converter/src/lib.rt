//! Which block each page has: now, at the last savepoint, and at one that is being made.
#![tactic(auto)]

mod kept;
mod laws;
mod load;
mod maps;
mod pages;

pub use laws::tree_names_its_map;
pub use maps::{Converter, FrozenMap};
pub use mdb_bytes::ConverterEntry as Entry;
