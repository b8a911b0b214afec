//! A row of the map.
use lt_ranges::Key;

/// A key of the map with its value.
#[derive(Clone, Copy, Debug, PartialEq, Eq, Hash)]
pub struct StoreRow {
    pub key: Key,
    pub value: u64,
}
