//! The rule of the ticket word and the slots, which holds between any two steps.
use crate::view::View;
use atomic_table::{Seat, Shared, TableRule};

/// The tickets that were drawn, the items at home, and what all seats know agree.
pub struct Rule;

impl<T> TableRule<Option<T>, View<T>, u32> for Rule {
    ghost use Rattle.lt_deal.specs.Rule.{Dealt, opener};

    ghost holds = { λ k. Dealt k };

    ghost first = { λ k. opener k };
}

/// The words and slots of a deal.
pub type Words<T> = Shared<Option<T>, View<T>, u32, Rule>;

/// A seat of a deal.
pub type Place<T> = Seat<Option<T>, View<T>>;
