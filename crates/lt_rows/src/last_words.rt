//! The words of a table that no pass uses any more.
ghost use Rattle.std.specs.Prelude.{◌≡◌, ◌+◌, ◌*◌, ◌^◌, ◌<◌};
ghost use Rattle.std.specs.Mem.Slots.{slots_len, IsFull};
ghost use mathlib.Core.Option.{some};
ghost use lib.ListN.{get_elem?};
ghost use Rattle.lt_rows.specs.Openings.{row_words};

use crate::image::RowImage;
use atomic_table::Closed;
use std::alloc::Global;

/// The words of a table that no pass uses any more, with the number of its rows.
pub(crate) struct LastWords {
    closed: Closed<(), Global>,
    pub(crate) rows: usize,
    ghost full: { (slots_len closed.words ≡ 22 * rows + 1) × IsFull closed.words },
    ghost few: { rows < 2 ^ 32 },
    ghost empty: { slots_len closed.slots ≡ 0 },
}

impl LastWords {
    ghost use Rattle.lt_rows.specs.LastWords.{words_in};

    /// The words of this many rows.
    pub(crate) fn new(closed: Closed<(), Global>, rows: usize) -> Self
        requires words { (slots_len closed.words ≡ 22 * rows + 1) × IsFull closed.words }
        requires few { rows < 2 ^ 32 }
        requires empty { slots_len closed.slots ≡ 0 }
        ensures { (result.closed ≡ closed) × (result.rows ≡ rows) }
    {
        LastWords { closed, rows }
    }

    /// The words of a row.
    pub(crate) fn row(&self, row: usize) -> RowImage
        requires { row < self.now.rows }
        ensures { result.words ≡ row_words (words_in self.now) row }
    {
        let mut words = [0; 21];
        for j in 0..21 {
            words[j] = self.closed.word(22 * row + 1 + j);
        }
        RowImage {
            row: row as u32,
            words,
        }
    }

    /// The history word.
    pub(crate) fn history(&self) -> u64
        ensures { get_elem? (words_in self.now) (22 * self.now.rows) ≡ some result }
    {
        self.closed.word(22 * self.rows)
    }

    /// Gives the memory back.
    pub(crate) fn free(self) {
        let LastWords { closed, rows: _ } = self;
        closed.free();
    }
}
