//! The buffer of a lone transaction in a table of shared rows: a chain of rows below its tree's anchor. Each call is lent a pass
//! that holds the anchor.
#![tactic(auto)]

mod add;
mod drop;
mod front;
mod image;
mod images;
mod pairs;
mod put;
mod read;
mod walk;
pub mod worked;

pub use add::{append, begin};
pub use drop::drop_all;
pub use read::{ChainRead, put_chain, to_pairs};

#[cfg(test)]
mod tests;
