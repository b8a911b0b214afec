//! Barriers that no join crosses.
#![tactic(auto)]

mod barrier;
mod cut_joins;
pub mod laws;
mod mark_barrier;

pub use barrier::Barrier;
pub use cut_joins::join_cut;
pub use mark_barrier::MarkBarrier;

#[cfg(test)]
mod tests;
