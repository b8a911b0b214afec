//! The length of a piece.
ghost use Rattle.std.specs.Prelude.{◌≡◌};
ghost use Rattle.lt_edge.specs.Memory.{piece_len};

/// The length of the next piece: the least of a piece, where 0 counts as 1, of what may be moved and of what can be.
pub(crate) fn next_len(piece: usize, asked: usize, rest: usize) -> usize
    ensures { result ≡ piece_len piece asked rest }
{
    piece.max(1).min(asked.min(rest))
}
