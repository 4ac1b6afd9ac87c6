//! Pages that hold tables as lists of leaves are well formed, and mean the rows on them.
#![tactic(auto)]

mod laws;

pub use laws::{
    a_form_without_undo_is_an_area, an_area_is_formed, leaves_are_standing, no_key_is_empty,
    pages_are_counted,
};
