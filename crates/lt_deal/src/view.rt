//! What a seat knows: contracts alone see it, and no value of it is made.
use std::collections::LinkedList;

/// What a seat knows.
pub struct View<T> {
    /// How many seats it stands for: 1 for a seat, more for one that makes further seats, 0 for one that is spent.
    pub parts: u64,
    /// The first items, by index.
    pub stock: LinkedList<T>,
    /// How many slots behind the stock it has taken to fill them: 0 or 1.
    pub filling: u64,
    /// The indexes that it drew, in order.
    pub drew: LinkedList<u64>,
    /// What it gave back, in order, with the indexes.
    pub gave: LinkedList<(u64, T)>,
    /// How often it was answered None.
    pub nones: u64,
}
