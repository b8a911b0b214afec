//! Search trees of rows as plain data: parts of them, how a part is laid out, and the laws of the forest that the rows of a
//! table make up.
#![tactic(auto)]

pub mod laws;
mod layout;
mod part;
mod rotation;
mod search;
pub mod worked;

pub use layout::{Layout, lay_out};
pub use part::{Part, PartRow, Placed, Visit};
pub use rotation::{rotate_left, rotate_right};
pub use search::visit;

#[cfg(test)]
mod tests;
