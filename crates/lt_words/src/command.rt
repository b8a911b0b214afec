//! What the words ask for.
use lt_ranges::Key;

/// The most workers of a crew, and the most threads of a live run.
pub(crate) const MOST_WORKERS: u64 = 16;

/// The numbers that a trace is made of.
#[derive(Clone, Copy, Debug, PartialEq, Eq, Hash)]
pub struct Recipe {
    /// Any number of 64 bits.
    pub seed: u64,
    /// How many transactions it has, 1 to 1,024.
    pub txns: u32,
    /// How many lines are drawn, 1 to 64,512.
    pub lines: u32,
}

/// What the words ask for.
#[derive(Clone, Copy, Debug, PartialEq, Eq, Hash)]
pub enum Command {
    /// `serial`: play the trace that is read with the plain scheduler.
    Serial,
    /// `crew N`: play the trace that is read by a crew of so many workers, 1 to 16.
    Crew(u32),
    /// `live N`: play the trace that is read by so many threads that wait for each other, 1 to 16.
    Live(u32),
    /// `cut N KEY`: play the trace that is read by a crew of so many workers, 1 to 16, with joins that stop at this key.
    Cut { workers: u32, mark: Key },
    /// `store`: play the script that is read on a map.
    Store,
    /// `make SEED TXNS LINES`: make a trace.
    Make(Recipe),
    /// `sum SEED TXNS LINES`: play that trace, and tell the run in one line of numbers.
    Sum(Recipe),
}
