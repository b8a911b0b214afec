//! Scripts: moves of transactions on a strict two-phase map, read line by line, and played.
#![tactic(auto)]

mod body;
mod body_line;
mod form;
mod header;
pub mod laws;
mod playing;
mod reading;
mod script;
mod text;
mod text_line;

pub use playing::run_script;
pub use reading::read;
pub use script::Script;
pub use text_line::{DECIDING_BYTES, MOST_LINES};

#[cfg(test)]
mod tests;
#[cfg(test)]
mod tests_of_playing;
