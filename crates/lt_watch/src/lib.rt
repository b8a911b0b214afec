//! Watches that are told what joins leave.
#![tactic(auto)]

mod list_watch;
mod no_watches;
mod tells;
mod told;
mod watch;
mod watchers;

pub use list_watch::ListWatch;
pub use no_watches::NoWatches;
pub use tells::{Tells, tell_notes};
pub use told::Told;
pub use watch::{Watch, WatchFull};
pub use watchers::{NotAdded, Watchers};

#[cfg(test)]
mod tests;
