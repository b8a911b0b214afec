//! Items that threads draw one by one: a ticket word that says whose turn it is, and a slot for each item.
#![tactic(auto)]

mod build;
mod close;
mod crossing;
mod deal;
mod plays;
mod rule;
mod seat;
mod steps;
mod view;

pub use deal::Deal;
pub use seat::DealSeat;
pub use view::View;

#[cfg(test)]
mod tests;
