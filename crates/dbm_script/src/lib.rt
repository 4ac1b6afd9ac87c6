//! The language of scripts: lines are read into commands, and replies are printed as text.
#![tactic(auto)]

mod byte_strings;
mod cutting;
mod fault;
mod forms;
mod line;
mod numbers;
mod printing;
mod recovering;
mod replies;
mod writing;

pub use fault::LineFault;
pub use line::parse_line;
pub use numbers::number;
pub use printing::{print_end, print_medium, print_reply, print_row};
pub use replies::{medium_text, reply_text, row_text};
pub use writing::LineBuf;
