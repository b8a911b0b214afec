//! A thread's part in a deal.
ghost use Rattle.std.specs.Prelude.{◌≡◌};
ghost use Rattle.lt_deal.specs.Seats.{view};

use crate::rule::Place;

/// A thread's part in a deal: it draws an item, holds it, and gives it back before it draws the next.
#[derive(Drop)]
pub struct DealSeat<T> {
    pub(crate) place: Place<T>,
    ghost single: { ((view place).parts ≡ 1) × ((view place).filling ≡ 0) },
}
