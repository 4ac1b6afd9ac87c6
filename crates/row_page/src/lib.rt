//! Row leaves and index pages as sorted lists of entries, edited in place.
#![tactic(auto)]

mod body;
mod page;
mod parts;

pub use page::{
    child_of, clear, count_of, find, insert, is_row_leaf, key_of, level_of, merge, next_of, remove,
    set_next, split, start, used_of, value_of,
};
