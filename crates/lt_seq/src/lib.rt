//! The lock table as one sequential object.
#![tactic(auto)]

mod event;
mod fault;
pub mod laws;
mod lists;
mod pairs;
mod plan;
mod runs;
mod seq_calls;
mod seq_note;
mod seq_pass;
mod seq_tree;
mod seq_trees;
mod seq_yard;
mod yard;

pub use event::{Deed, Event, Held, JoinNote, Look, Mode, Pair, Receipt, Reply};
pub use fault::Fault;
pub use lists::{HeldList, Owners};
pub use pairs::{add_held, free, grant, others_of};
pub use plan::{PLACES_END, YardPlan};
pub use runs::{JoinCounts, are_joined, join_pairs};
pub use seq_note::SeqNote;
pub use seq_pass::SeqPass;
pub use seq_yard::SeqYard;
pub use yard::{Closed, Note, Pass, Yard};

#[cfg(test)]
mod tests;
#[cfg(test)]
mod tests_of_buffers;
