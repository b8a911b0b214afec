//! A thread's part in a table.
ghost use Rattle.std.specs.Prelude.{◌≡◌, ◌+◌, [], length};
ghost use Rattle.lt_rows.specs.Passes.{view};
ghost use Rattle.lt_rows.specs.Views.{rows_of};

use crate::rule::Place;

/// A thread's part in a table: it holds rows, and the rights without which it can hold none.
#[derive(Drop)]
pub struct RowPass {
    pub(crate) place: Place,
    pub(crate) number: u32,
    pub(crate) rights: u32,
    ghost numbered: { ((view place).mark ≡ number + 1) × ((view place).numbers ≡ 1) × ((view place).rights ≡ rights) × (place.me.1 ≡ []) },
    ghost wide: { length (view place).held ≡ rows_of (view place).plan },
}

impl RowPass {
    /// Its number, by which others find it in a lock word.
    pub fn number(&self) -> u32
        ensures { result ≡ self.now.number }
    {
        self.number
    }

    /// Its rights. A pass that has all of its table's rights knows that no other pass holds a row.
    pub fn rights(&self) -> u32
        ensures { result ≡ self.now.rights }
    {
        self.rights
    }
}
