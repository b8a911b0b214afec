//! The words of the command line.
#![tactic(auto)]

mod by_hand;
mod command;
mod grammar;
mod mark;
mod reading;
mod words;

pub use command::{Command, Recipe};
pub use words::command_of;

#[cfg(test)]
mod tests;
