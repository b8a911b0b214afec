//! What is asked of a tree of shared rows, from what a search holds: each event as the plan that its commit takes.
#![tactic(auto)]

mod answers;
mod ask;
mod asked_buffer;
mod asking;
mod buffer_ask;
mod buffer_end;
mod buffer_free;
mod buffer_join;
mod buffer_plan;
mod buffer_rows;
mod buffer_taken;
mod buffer_who;
mod drawing;
mod ending;
mod escalate;
mod free;
mod freeing;
mod giving;
mod granting;
mod growing;
mod inserting;
mod joining;
pub mod laws;
mod leaving;
mod locktree;
mod merging;
mod noting;
mod owners;
mod pairs_of;
mod planning;
mod questions;
mod rejoining;
mod serving;
mod splitting;
mod standing;
mod tree_pass;
mod who;

pub use answers::{Asked, Named};
pub use asking::Asking;
pub use ending::plan_tree;
pub use freeing::{free_in_tree, free_rows, plan_freed};
pub use granting::{ask_in_tree, grant_ask};
pub use growing::{grow_row, plan_grown};
pub use inserting::{plan_put_in, put_in_row};
pub use joining::widen_whole;
pub use leaving::{Leaving, LeftOut, leave_out, leave_widened};
pub use locktree::Locktree;
pub use merging::{merge_rows, plan_merged};
pub use noting::held_rows;
pub use owners::owners_of;
pub use planning::plan_rows;
pub use questions::{ask_who, refuse_ask};
pub use rejoining::{Rejoined, join_none, join_rows, join_tree, part_rejoined, rejoin};
pub use splitting::overlapping;
pub use standing::stand_pairs;
pub use tree_pass::TreePass;

#[cfg(test)]
mod mark_tests;
#[cfg(test)]
mod mode_tests;
#[cfg(test)]
mod row_tests;
#[cfg(test)]
mod search_tests;
#[cfg(test)]
mod stopped_tests;
#[cfg(test)]
mod test_calls;
#[cfg(test)]
mod tests;
