//! The ranges that a transaction was granted, recorded in as few bytes as they take.
#![tactic(auto)]

mod range_buffer;
mod range_iter;
mod reading;
mod writing;

pub use range_buffer::RangeBuffer;
pub use range_iter::RangeIter;

#[cfg(test)]
mod tests;
