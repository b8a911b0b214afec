//! The lock table that threads share, for C: a handle for each thread, and calls that never wait.
#![tactic(auto)]

mod answer;
mod c_handle;
mod counts;
mod deeds;
mod exports;
mod handle;
mod limit;
mod looking;
mod opening;
mod slot;
#[cfg(test)]
mod tests;
