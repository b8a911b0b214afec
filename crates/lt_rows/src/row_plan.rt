//! What a table is built with.
ghost use Rattle.std.specs.Prelude.{◌≡◌};
ghost use Rattle.lt_rows.specs.Plan.{with_marks};

use lt_ranges::Key;
use lt_seq::YardPlan;
use std::marker::Model;

/// Keys at which joins stop: none makes one range of two between which a mark lies.
#[derive(Debug, Drop)]
pub struct Marks {
    list: Vec<Key>,
}

impl Model for Marks {
    ghost use Rattle.std.specs.Prelude.{List};
    ghost use Rattle.lt_ranges.specs.declared.key.Key.{Key};

    ghost Value = { List Key };

    ghost view = { λ m. m.list.items };
}

impl Marks {
    /// These marks, in this order. It takes no memory.
    pub(crate) fn of(list: Vec<Key>) -> Marks
        ensures { result ≡ list.items }
    {
        Marks { list }
    }

    /// The marks in order.
    pub fn as_slice(&self) -> &[Key]
        ensures { result.now ≡ self.now }
    {
        &self.list
    }
}

/// The sizes of a table and its marks, which stay the same as long as it lives.
#[derive(Debug, Drop)]
pub struct RowPlan {
    /// The number of trees, from 1 to 16. They are numbered from 0.
    pub trees: u32,
    /// The rows in use at which an ask is out of locks, from 1 to 65,536.
    pub limit: u64,
    /// The most rows of a buffer, up to 65,536; 0 for no buffers.
    pub buffer: u64,
    /// The number of passes, from 1 to 17.
    pub passes: u32,
    /// The place of the first event, up to 2^39.
    pub first: u64,
    /// Where joins stop.
    pub marks: Marks,
}

impl RowPlan {
    /// A plan of these sizes with these marks.
    pub(crate) fn of(sizes: &YardPlan, marks: Vec<Key>) -> RowPlan
        ensures { result ≡ with_marks sizes.now marks.items }
    {
        RowPlan {
            trees: sizes.trees,
            limit: sizes.limit,
            buffer: sizes.buffer,
            passes: sizes.passes,
            first: sizes.first,
            marks: Marks::of(marks),
        }
    }
}
