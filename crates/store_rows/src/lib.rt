//! Rows on the pages of a store.
#![tactic(auto)]

mod rows;

pub use rows::{cost_of_table, del_row, get_row, next_row_of, pages_of_table, put_row};
