//! What undoes a put.
use lt_ranges::Key;

/// What was found of a key before a put.
#[derive(Clone, Copy, Debug, PartialEq, Eq, Hash)]
pub struct Undo {
    pub key: Key,
    pub old: Option<u64>,
}
