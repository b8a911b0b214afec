//! Rows that an answer carries.
ghost use Rattle.std.specs.Prelude.{◌≡◌};

use crate::row::StoreRow;
use std::marker::Model;

/// Rows of the map, ascending by key.
#[derive(Debug, Drop)]
pub struct RowList {
    list: Vec<StoreRow>,
}

impl Model for RowList {
    ghost use Rattle.std.specs.Prelude.{List};
    ghost use Rattle.lt_store.specs.declared.row.StoreRow.{StoreRow};

    ghost Value = { List StoreRow };

    ghost view = { λ a. a.list.items };
}

impl RowList {
    /// These rows, in this order. It takes no memory.
    pub(crate) fn of(list: Vec<StoreRow>) -> RowList
        ensures { result ≡ list.items }
    {
        RowList { list }
    }

    /// The rows in order.
    pub fn as_slice(&self) -> &[StoreRow]
        ensures { result.now ≡ self.now }
    {
        &self.list
    }
}
