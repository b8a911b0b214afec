//! The rows of the map.
ghost use Rattle.std.specs.Prelude.{◌≡◌, ◌≢◌, [], None, IfOk, IfErr, OnOk};
ghost use Rattle.lt_store.specs.Rows.{find, put, restored, inside, AreAscending};
ghost use Rattle.lt_store.specs.Places.{IsPlace, IsAt, IsGap};

use crate::row::StoreRow;
use crate::row_list::RowList;
use lt_ranges::{Key, KeyRange};
use std::alloc::{AllocError, Global};
use std::marker::Model;

/// The rows of the map, ascending by key.
#[derive(Debug, Drop)]
pub(crate) struct Rows {
    list: Vec<StoreRow>,
}

impl Model for Rows {
    ghost use Rattle.std.specs.Prelude.{List};
    ghost use Rattle.lt_store.specs.declared.row.StoreRow.{StoreRow};
    ghost use Rattle.lt_store.specs.Rows.{AreAscending};

    ghost Value = { List StoreRow };

    ghost view = { λ r. r.list.items };

    ghost invariant = { λ r. AreAscending r.list.items };
}

/// How many rows lie before the key.
fn place_of(rows: &[StoreRow], key: &Key) -> usize
    requires { AreAscending rows.now }
    ensures { IsPlace rows.now key.now result }
{
    rows.partition_point(|row| !key.is_at_most(&row.key))
}

/// Where the key is, or where it goes.
fn search(rows: &[StoreRow], key: &Key) -> Result<usize, usize>
    requires { AreAscending rows.now }
    ensures found { IfOk result (IsAt rows.now key.now) }
    ensures missed { IfErr result (IsGap rows.now key.now) }
{
    let place = place_of(rows, key);
    if place < rows.len() && rows[place].key.is_at_most(key) {
        Ok(place)
    } else {
        Err(place)
    }
}

/// The rows of a range.
fn rows_in(alloc: Global, rows: &[StoreRow], range: &KeyRange) -> Result<Vec<StoreRow>, AllocError>
    ensures { IfOk result (λ found. found.items ≡ inside range.now rows.now) }
{
    let left = range.left();
    let right = range.right();
    rows.iter()
        .copied()
        .filter(|row| left.is_at_most(&row.key) && row.key.is_at_most(&right))
        .collect(alloc)
}

impl Rows {
    pub(crate) fn new(alloc: Global) -> Rows
        ensures { result ≡ [] }
    {
        Rows {
            list: Vec::new(alloc),
        }
    }

    /// The value of a key.
    pub(crate) fn find(&self, key: &Key) -> Option<u64>
        ensures { result ≡ find self.now key.now }
    {
        match search(&self.list, key) {
            Ok(place) => Some(self.list[place].value),
            Err(_) => None,
        }
    }

    /// Sets the value of a key.
    pub(crate) fn put(&mut self, key: &Key, value: u64) -> Result<(), AllocError>
        ensures { OnOk result (self.new ≡ put self.old key.now value) }
    {
        let row = StoreRow { key: *key, value };
        match search(&self.list, key) {
            Ok(place) => {
                self.list[place] = row;
                Ok(())
            }
            Err(place) => Ok(self.list.insert(place, row)?),
        }
    }

    /// Gives a key again what was found of it before. It takes no memory.
    pub(crate) fn restore(&mut self, key: &Key, old: Option<u64>)
        requires { find self.old key.now ≢ None }
        ensures { self.new ≡ restored self.old key.now old }
    {
        match search(&self.list, key) {
            Ok(place) => match old {
                Some(value) => self.list[place] = StoreRow { key: *key, value },
                None => {
                    let _row = self.list.remove(place);
                }
            },
            Err(_) => unreachable!(),
        }
    }

    /// The rows of a range.
    pub(crate) fn inside(&self, alloc: Global, range: &KeyRange) -> Result<RowList, AllocError>
        ensures { IfOk result (λ rows. rows ≡ inside range.now self.now) }
    {
        let list = rows_in(alloc, &self.list, range)?;
        Ok(RowList::of(list))
    }

    /// All rows, ascending by key.
    pub(crate) fn into_list(self) -> RowList
        ensures rows { result ≡ self }
        ensures ascending { AreAscending self }
    {
        RowList::of(self.list)
    }
}
