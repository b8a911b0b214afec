//! What each kind of step tells its seat.
use crate::view::View;
use atomic_table::{Join, Play, Split};

/// A load that takes the slot behind the stock.
pub struct Opens;

impl<T> Play<Option<T>, View<T>> for Opens {
    ghost use Rattle.lt_deal.specs.Plays.{opens};

    ghost then = { opens };
}

/// A load that puts the slot behind the stock back, filled.
pub struct Stocks;

impl<T> Play<Option<T>, View<T>> for Stocks {
    ghost use Rattle.lt_deal.specs.Plays.{stocks};

    ghost then = { stocks };
}

/// An add that draws a ticket.
pub struct Draws;

impl<T> Play<Option<T>, View<T>> for Draws {
    ghost use Rattle.lt_deal.specs.Plays.{draws};

    ghost then = { draws };
}

/// A load that gives an item back.
pub struct Gives;

impl<T> Play<Option<T>, View<T>> for Gives {
    ghost use Rattle.lt_deal.specs.Plays.{gives_back};

    ghost then = { gives_back };
}

/// A seat that keeps one part, and one that has the others.
pub struct Parts;

impl<T> Split<View<T>> for Parts {
    ghost use Rattle.lt_deal.specs.Rule.{maker, further};

    ghost left = { maker };

    ghost right = { further };
}

/// A seat that takes in what another knows.
pub struct Gathers;

impl<T> Join<View<T>> for Gathers {
    ghost use Rattle.lt_deal.specs.Rule.{gathered, spent};

    ghost both = { gathered };

    ghost spent = { spent };
}
