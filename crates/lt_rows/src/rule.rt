//! The rule of the table's words, which holds between any two steps.
use crate::row_plan::RowPlan;
use crate::view::View;
use atomic_table::{Seat, Shared, TableRule};

/// The one-table invariant: the words and what all seats know are one range table after one history.
pub struct Rule;

impl TableRule<(), View, RowPlan> for Rule {
    ghost use Rattle.lt_rows.specs.Rule.{Rows};
    ghost use Rattle.lt_rows.specs.Views.{opener};
    ghost use Rattle.lt_rows.specs.Woods.{woods};

    ghost holds = { λ k. Rows (woods k) k };

    ghost first = { λ k. opener k };
}

/// The words of a table.
pub type Words = Shared<(), View, RowPlan, Rule>;

/// A seat of a table.
pub type Place = Seat<(), View>;
