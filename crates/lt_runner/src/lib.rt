//! Plays traces.
#![tactic(auto)]

mod alone;
mod answers;
mod attempt;
mod board;
pub mod laws;
mod lines;
mod recorded;
mod release;
mod run;
mod serial;
mod steps;
mod sweeps;
mod transcript;
mod turn;

pub use release::Release;
pub use serial::{numbers, run_serial};
pub use transcript::Transcript;
pub use turn::{Moved, Turn};

#[cfg(test)]
mod tests;
