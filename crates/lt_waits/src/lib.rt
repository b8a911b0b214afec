//! Who waits for whom, and the least closed walk through one of them.
#![tactic(auto)]

mod graph;
mod laws;
mod search;
mod wait;

pub use graph::WaitGraph;
pub use laws::{least_walks_are_one, the_least_walk_is_computed};
pub use wait::Wait;

#[cfg(test)]
mod tests;
