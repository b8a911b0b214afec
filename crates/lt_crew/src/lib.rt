//! Transactions that workers play side by side.
#![tactic(auto)]

mod caller;
mod crew;
mod dealing;
mod drawing;
mod gate;
pub mod laws;
mod opening;
mod passes;
mod play;
mod playing;
mod rounds;
mod run;
mod run_on;
mod worker;

pub use caller::callers_turn;
pub use dealing::deal_round;
pub use gate::{Gate, OpenGate};
pub use run::run_crew;
pub use run_on::run_crew_on;
pub use worker::Worker;

#[cfg(test)]
mod tests;
