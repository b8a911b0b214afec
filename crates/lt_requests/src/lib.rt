//! Transactions that wait, and the search for deadlocks.
#![tactic(auto)]

mod asking;
mod cycle;
mod deadlock;
pub mod laws;
mod questions;
mod registry;
mod search;
mod started;
mod wish;

pub use asking::{retry, start};
pub use cycle::{Cycle, Edge};
pub use registry::Registry;
pub use started::Started;
pub use wish::Wish;

#[cfg(test)]
mod tests;
