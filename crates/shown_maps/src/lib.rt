//! What an image shows of the maps that a page store has on its blocks.
#![tactic(auto)]

mod laws;

pub use laws::{
    a_map_is_apart, a_map_is_shown, a_store_is_in_area, a_whole_savepoint_stands, no_rule_is_broken,
};
