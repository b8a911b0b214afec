//! Searches in the trees of a table of shared rows. A state of a search owns the pass. Other passes may act meanwhile on every
//! row that the state doesn't hold.
#![tactic(auto)]

mod descent;
mod estimates;
mod finish;
pub mod laws;
mod leveling;
mod locked;
mod part;
mod pool;
mod prepare;
mod put;
mod seize;
mod settling;
mod turning;
mod widen;

pub use descent::{Stop, descend};
pub use finish::write_all;
pub use locked::Locked;
pub use pool::PoolRows;
pub use prepare::{Anchor, Prepared, try_prepare};
pub use put::put_all;
pub use seize::seize as try_take;

#[cfg(test)]
mod tests;
