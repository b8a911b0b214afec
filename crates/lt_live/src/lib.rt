//! Transactions that threads play, which wait for each other.
#![tactic(auto)]

mod alone;
mod hire;
mod house;
pub mod laws;
mod live;
mod notes;
mod play;
mod queue;
mod run;
mod worker;

pub use run::run_live;
