//! The kernel: the lines of a script, on an open database or on none.
#![tactic(auto)]

pub mod kernel;
mod laws;
pub mod opening;
mod records;
mod starting;

pub use creation::{CreateFault, create};
pub use laws::{
    a_kernel_that_is_off_is_sound, off_as_the_worlds_are, saying_keeps_it_sound,
    saying_keeps_the_fit, saying_keeps_the_rows, these_tie_nothing,
};
pub use starting::each_image_is_a_start;
