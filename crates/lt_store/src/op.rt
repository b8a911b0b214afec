//! What a transaction may do to the map.
ghost use Rattle.std.specs.Prelude.{◌≡◌};
ghost use Rattle.lt_store.specs.Ranges.{range_of};

use lt_ranges::{Key, KeyRange};

/// An operation of a transaction.
#[derive(Clone, Copy, Debug, PartialEq, Eq, Hash)]
pub enum Op {
    /// Reads the value of a key.
    Get { key: Key },
    /// Sets the value of a key.
    Put { key: Key, value: u64 },
    /// Reads the rows of a range.
    Scan { range: KeyRange },
    /// Ends the transaction. Its puts stay.
    Commit,
    /// Ends the transaction. Its puts are undone.
    Abort,
}

/// An operation with the number of its transaction, from 1.
#[derive(Clone, Copy, Debug, PartialEq, Eq, Hash)]
pub struct Move {
    pub txn: u64,
    pub op: Op,
}

/// The range of one key.
fn point(key: &Key) -> KeyRange
    ensures { result ≡ record { left = key.now; right = key.now } }
{
    match KeyRange::new(*key, *key) {
        Ok(range) => range,
        Err(_) => unreachable!(),
    }
}

impl Op {
    /// The keys that it touches: for one that ends its transaction, any.
    pub(crate) fn range(&self) -> KeyRange
        ensures { result ≡ range_of self.now }
    {
        match self {
            Op::Get { key } | Op::Put { key, .. } => point(key),
            Op::Scan { range } => *range,
            Op::Commit | Op::Abort => KeyRange::whole(),
        }
    }
}
