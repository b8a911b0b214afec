//! What serves an ask in a tree.
ghost use Rattle.lt_locktree.specs.Serves.{Shows};

use lt_tree::Anchor;

/// What serves an ask.
#[derive(Clone, Copy)]
pub(crate) enum Serving {
    /// A buffer that begins: the tree is empty, and its score is 100.
    Beginning,
    /// The transaction's own buffer, which has room.
    Own,
    /// The tree that a buffer's ranges become: it ends, as another's or as a full one.
    Ending,
    /// The tree as it stands.
    Tree,
}

/// What serves an ask of the transaction, by what the anchor shows, where a buffer has at most so many rows.
pub(crate) fn served_by(buffer: u64, anchor: &Anchor, txn: u64) -> Serving
    ensures { Shows buffer txn anchor.now result }
{
    if anchor.buffer_txn == 0 {
        if anchor.top == 0 && anchor.score == 100 && buffer > 0 {
            Serving::Beginning
        } else {
            Serving::Tree
        }
    } else if anchor.buffer_txn == txn && anchor.buffered < buffer {
        Serving::Own
    } else {
        Serving::Ending
    }
}
