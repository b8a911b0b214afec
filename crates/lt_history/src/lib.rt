//! How runs end, and their text.
#![tactic(auto)]

pub mod laws;
mod merging;
mod outcome;
mod summing;
mod transcript;

pub use merging::merge;
pub use outcome::{Ended, Outcome};
pub use summing::summary;
pub use transcript::print;

#[cfg(test)]
mod tests;
