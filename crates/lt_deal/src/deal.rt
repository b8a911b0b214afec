//! The items and their tickets, and the calls of seats.
ghost use Rattle.std.specs.Prelude.{◌≡◌, ◌≤◌, ◌+◌, [], ◌∷◌, ◌++◌, length, IfOk, MatchOption, None, All};
ghost use mathlib.Core.Option.{some};
ghost use lib.ListN.{get_elem?};

use crate::build::{fill, seats};
use crate::close::{join, unpack};
use crate::rule::Rule;
use crate::seat::DealSeat;
use crate::steps;
use crate::view::View;
use atomic_table::Table;
use std::alloc::{AllocError, Global};

/// Items that threads draw one by one, each once. No call but `build` and `close` takes memory, and none waits.
#[derive(Drop)]
pub struct Deal<T> {
    pub(crate) table: Table<Option<T>, View<T>, u32, Rule, Global>,
    pub(crate) count: usize,
    pub(crate) workers: u32,
    ghost sized: { (table.shared.table_id.words ≡ 1) × (table.shared.table_id.slots ≡ count) × (table.shared.key ≡ workers) },
    ghost few: { (count ≤ 1024) × (1 ≤ workers) × (workers ≤ 16) },
}

impl<T: Drop> Deal<T> {
    ghost use Rattle.lt_deal.specs.Handles.{knows, IsSeatOf, Rests, Holds};
    ghost use Rattle.lt_deal.specs.Fresh.{IsNewSeat};
    ghost use Rattle.lt_deal.specs.Closings.{HasReturned, IsClosed, stock_of, drew_of, gave_of, nones_of};

    /// A deal of these items, each in the slot of its index, and a seat for each worker.
    ///
    /// # Errors
    /// Want of memory alone; the items are gone then.
    pub fn build(
        alloc: Global,
        items: Vec<T>,
        workers: u32,
    ) -> Result<(Deal<T>, Vec<DealSeat<T>>), AllocError>
        requires few { (length items.items ≤ 1024) × (1 ≤ workers) × (workers ≤ 16) }
        ensures sizes { IfOk result (λ r. (r.0.count ≡ length items.items) × (r.0.workers ≡ workers) × (length r.1.items ≡ workers)) }
        ensures seats { IfOk result (λ r. All (IsNewSeat r.0.table.shared.table_id items.items) r.1.items) }
    {
        let count = items.len();
        let (table, mut place) = Table::vacant(alloc, &[0], count, &workers)?;
        fill(&table.shared, &mut place, items);
        let seats = seats(alloc, &table.shared, place, workers)?;
        let deal = Deal {
            table,
            count,
            workers,
        };
        Ok((deal, seats))
    }

    /// Draws the next item, with its index. None comes where all were drawn, and then the seat draws no more.
    pub fn draw(&self, seat: &mut DealSeat<T>) -> Option<(u32, T)>
        requires of { IsSeatOf self.now seat.old }
        requires rests { Rests seat.old × ((knows seat.old).nones ≡ 0) }
        ensures of { IsSeatOf self.now seat.new }
        ensures none { MatchOption result (Rests seat.new × (knows seat.new ≡ record (knows seat.old) { nones = 1 })) (λ r. Holds seat.new r.0) }
        ensures drawn { MatchOption result ((knows seat.new).drew ≡ (knows seat.old).drew) (λ r. (get_elem? (knows seat.old).stock r.0 ≡ some r.1)
            × (knows seat.new ≡ record (knows seat.old) { drew = (knows seat.old).drew ++ r.0 ∷ [] })) }
    {
        let shared = &self.table.shared;
        let found = steps::ticket(shared, &mut seat.place);
        if found >= self.count as u64 {
            return None;
        }
        match shared.exchange(&mut seat.place, found as usize, None) {
            Some(item) => Some((found as u32, item)),
            None => unreachable!(),
        }
    }

    /// Gives the item back at the index that the seat drew.
    pub fn give_back(&self, seat: &mut DealSeat<T>, index: u32, item: T)
        requires of { IsSeatOf self.now seat.old }
        requires holds { Holds seat.old index }
        ensures of { IsSeatOf self.now seat.new }
        ensures given { Rests seat.new × (knows seat.new ≡ record (knows seat.old) { gave = (knows seat.old).gave ++ (index, item) ∷ [] }) }
    {
        let shared = &self.table.shared;
        match shared.exchange(&mut seat.place, index as usize, Some(item)) {
            None => {}
            Some(_) => unreachable!(),
        }
        steps::give(shared, &mut seat.place, index as usize);
    }

    /// Ends the deal, and hands the items back in the order of their indexes. No index was drawn twice, and where a seat was
    /// answered None each was drawn. At each index stands what was given back there, or the first item where none drew it.
    ///
    /// # Errors
    /// Want of memory alone; the items are gone then.
    pub fn close(self, alloc: Global, seats: Vec<DealSeat<T>>) -> Result<Vec<T>, AllocError>
        requires all { (length seats.items ≡ self.workers) × (length (stock_of seats.items) ≡ self.count) }
        requires returned { All (HasReturned self.table.shared.table_id) seats.items }
        ensures { IfOk result (λ r. IsClosed (stock_of seats.items) (drew_of seats.items) (gave_of seats.items) (nones_of seats.items) r.items) }
    {
        let mut items = Vec::with_capacity(alloc, self.count)?;
        let mut others = seats;
        let DealSeat { mut place } = others.remove(0);
        join(&self.table.shared, &mut place, others);
        let Deal {
            table,
            count: _,
            workers: _,
        } = self;
        unpack(table.close_with(place), &mut items);
        Ok(items)
    }
}
