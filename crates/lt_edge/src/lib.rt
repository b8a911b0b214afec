//! Where bytes come from and where they go, one piece after another, each with a count of its faults.
#![tactic(auto)]

mod failed;
mod mem_sink;
mod mem_source;
mod no_fail_sink;
mod no_fail_source;
mod piece;
mod read_source;
mod reading;
mod sink;
mod source;
mod write_sink;
mod writing;

pub use failed::Failed;
pub use mem_sink::MemSink;
pub use mem_source::MemSource;
pub use no_fail_sink::NoFailSink;
pub use no_fail_source::NoFailSource;
pub use read_source::ReadSource;
pub use reading::{ReadFault, read_all};
pub use sink::Sink;
pub use source::Source;
pub use write_sink::WriteSink;
pub use writing::put_all;

#[cfg(test)]
mod tests;
