//! The end of a deal: its seats are joined, and the items taken out of the slots.
ghost use Rattle.std.specs.Prelude.{◌≡◌, ℕ, ◌+◌, ◌<◌, ◌≤◌, ◌++◌, [], length, All, Some, vec_capacity};
ghost use Rattle.std.specs.Mem.Slots.{slots_len, slots_items, IsFull};
ghost use mathlib.Core.Option.{some};
ghost use lib.ListN.{get_elem?};
ghost use Rattle.lt_deal.specs.Seats.{view, Fits};
ghost use Rattle.lt_deal.specs.Closings.{HasReturned, drew_of, gave_of, nones_of};

use crate::rule::{Place, Words};
use crate::seat::DealSeat;
use crate::steps;
use atomic_table::Closed;
use std::alloc::Global;

/// Takes in what the other seats know.
pub(crate) fn join<T: Drop>(words: &Words<T>, place: &mut Place<T>, others: Vec<DealSeat<T>>)
    requires of { Fits words.now.table_id × (place.old.table_id ≡ words.now.table_id) }
    requires some { 0 < (view place.old).parts }
    requires others { All (HasReturned words.now.table_id) others.items }
    ensures of { (place.new.table_id ≡ place.old.table_id) × (place.new.me.1 ≡ place.old.me.1) × ((view place.new).stock ≡ (view place.old).stock) }
    ensures parts { (view place.new).parts ≡ (view place.old).parts + length others.items }
    ensures drew { (view place.new).drew ≡ (view place.old).drew ++ drew_of others.items }
    ensures gave { (view place.new).gave ≡ (view place.old).gave ++ gave_of others.items }
    ensures nones { (view place.new).nones ≡ (view place.old).nones + nones_of others.items }
{
    for other in others {
        let DealSeat { place: theirs } = other;
        steps::gather(words, place, theirs);
    }
}

/// Takes the items out of the slots, each of which has one.
pub(crate) fn unpack<T: Drop>(closed: Closed<Option<T>, Global>, items: &mut Vec<T>)
    requires full { IsFull closed.slots }
    requires has { (k : ℕ) → k < slots_len closed.slots → (x : T) × (get_elem? (slots_items closed.slots) k ≡ some (Some x)) }
    requires room { (items.old.items ≡ []) × (slots_len closed.slots ≤ vec_capacity items.old) }
    ensures count { length items.new.items ≡ slots_len closed.slots }
    ensures items { (k : ℕ) (x : T) → get_elem? (slots_items closed.slots) k ≡ some (Some x) → get_elem? items.new.items k ≡ some x }
{
    let mut closed = closed;
    for k in 0..closed.slot_count() {
        let Some(item) = closed.take(k) else {
            unreachable!()
        };
        items.push(item).unwrap();
    }
    closed.free();
}
