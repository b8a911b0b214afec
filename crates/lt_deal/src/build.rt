//! The slots of a new deal, and its seats.
ghost use Rattle.std.specs.Prelude.{◌≡◌, ◌<◌, ◌≤◌, ◌+◌, [], ◌∷◌, ◌++◌, length, IfOk, All};
ghost use Rattle.lt_deal.specs.Seats.{view, Fits};
ghost use Rattle.lt_deal.specs.Fresh.{IsFresh, IsNewSeat, waiting};

use crate::rule::{Place, Words};
use crate::seat::DealSeat;
use crate::steps;
use std::alloc::{AllocError, Global};

/// Puts the item into the slot behind the stock.
pub(crate) fn fill_one<T: Drop>(words: &Words<T>, place: &mut Place<T>, index: usize, item: T)
    requires of { Fits words.now.table_id × (place.old.table_id ≡ words.now.table_id) }
    requires bare { (place.old.me.1 ≡ []) × ((view place.old).filling ≡ 0) }
    requires fresh { IsFresh words.now.key (view place.old) }
    requires slot { (index ≡ length (view place.old).stock) × (index < words.now.table_id.slots) }
    ensures of { (place.new.table_id ≡ place.old.table_id) × (place.new.me.1 ≡ []) }
    ensures filled { view place.new ≡ record (view place.old) { stock = (view place.old).stock ++ item ∷ [] } }
{
    steps::open(words, place);
    drop(words.exchange(place, index, Some(item)));
    steps::stock(words, place);
}

/// Puts the items into the slots, each at its index.
pub(crate) fn fill<T: Drop>(words: &Words<T>, place: &mut Place<T>, items: Vec<T>)
    requires of { Fits words.now.table_id × (place.old.table_id ≡ words.now.table_id) × (words.now.table_id.slots ≡ length items.items) }
    requires new { (place.old.me ≡ (waiting words.now.key [], [])) × (0 < words.now.key) }
    ensures of { place.new.table_id ≡ place.old.table_id }
    ensures filled { place.new.me ≡ (waiting words.now.key items.items, []) }
{
    let mut index = 0;
    for item in items {
        fill_one(words, place, index, item);
        index += 1;
    }
}

/// The seats, of one part each.
pub(crate) fn seats<T>(
    alloc: Global,
    words: &Words<T>,
    place: Place<T>,
    workers: u32,
) -> Result<Vec<DealSeat<T>>, AllocError>
    requires of { Fits words.now.table_id × (place.table_id ≡ words.now.table_id) }
    requires new { (place.me ≡ (waiting workers (view place).stock, [])) × (1 ≤ workers) }
    ensures { IfOk result (λ s. (length s.items ≡ workers) × All (IsNewSeat place.table_id (view place).stock) s.items) }
{
    let mut seats = Vec::new(alloc);
    let mut place = place;
    for _number in 1..workers {
        let rest = steps::part(words, &mut place);
        seats.push(DealSeat { place })?;
        place = rest;
    }
    seats.push(DealSeat { place })?;
    Ok(seats)
}
