//! Traces: what transactions do, line by line.
#![tactic(auto)]

mod body;
mod body_line;
pub mod cut;
mod fault;
mod form;
mod generator;
mod header;
mod header_form;
mod key_words;
pub mod laws;
mod line;
mod numbers;
mod reading;
mod text_line;
mod trace;
mod writing;

pub use body_line::MOST_TXNS;
pub use fault::TraceFault;
pub use form::MOST_NUMBER;
pub use generator::{MOST_DRAWN_LINES, make};
pub use header::header_line;
pub use header_form::{HeaderForm, LIMIT};
pub use key_words::{Ends, KeyWord, cut_key, read_ends, read_key};
pub use line::{Line, LineDeed};
pub use numbers::number;
pub use reading::read;
pub use text_line::{DECIDING_BYTES, MOST_LINE_BYTES, MOST_LINES, take_line};
pub use trace::Trace;
pub use writing::write;

#[cfg(test)]
mod tests;
