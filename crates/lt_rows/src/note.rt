//! What one pass hands to another.
ghost use Rattle.std.specs.Prelude.{◌≡◌, []};
ghost use Rattle.lt_rows.specs.Passes.{view};
ghost use Rattle.lt_rows.specs.Views.{note};

use crate::rule::Place;

/// Rights that one pass hands to another, and the history as it has seen it.
#[derive(Drop)]
pub struct RowNote {
    pub(crate) place: Place,
    pub(crate) rights: u32,
    ghost noted: { (view place ≡ note (view place).plan rights (view place).front) × (place.me.1 ≡ []) },
}
