//! A strict two-phase map over a lock table: transactions get, put and scan, and commit or abort. Each holds the ranges that it has
//! touched until it ends, so that those that committed come to the same one after another.
#![tactic(auto)]

mod acting;
mod answer;
mod attempting;
mod beginning;
mod book;
mod done;
mod ending;
mod finished;
mod giving_up;
mod locks;
mod op;
mod open;
mod row;
mod row_list;
mod rows;
mod stepping;
mod store;
mod undo;

pub use answer::Answer;
pub use done::{Done, DoneList};
pub use finished::Finished;
pub use op::{Move, Op};
pub use row::StoreRow;
pub use row_list::RowList;
pub use store::Store;
pub use undo::Undo;

#[cfg(test)]
mod tests;
