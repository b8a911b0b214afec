//! The lock table that threads share, with the receipts and notes that its passes keep.
#![tactic(auto)]

mod again;
mod ask_below;
mod asking;
mod bars;
mod building;
mod closing;
mod escalate;
mod free;
mod joining;
pub mod laws;
mod manager;
mod manager_note;
mod manager_pass;
mod receipts;
mod sharing;
mod who;

pub use manager::{Manager, NotBuilt};
pub use manager_note::ManagerNote;
pub use manager_pass::ManagerPass;

#[cfg(test)]
mod cut_tests;
#[cfg(test)]
mod history_tests;
#[cfg(test)]
mod tests;
