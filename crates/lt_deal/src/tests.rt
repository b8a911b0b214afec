//! Two seats on one thread draw three items in turns and give them back.
ghost use Rattle.std.specs.Prelude.{◌≡◌, MatchOption};
ghost use Rattle.lt_deal.specs.Closings.{HasReturned};
ghost use Rattle.lt_deal.specs.Handles.{knows, IsSeatOf, Rests};

use crate::deal::Deal;
use crate::seat::DealSeat;
use std::test::Fail;

/// Draws an item and gives it back.
#[tactic(auto, using(crate::proofs::Closes::map_both))]
fn turn(deal: &Deal<u8>, seat: &mut DealSeat<u8>) -> Option<(u32, u8)>
    requires of { IsSeatOf deal.now seat.old }
    requires rests { Rests seat.old × ((knows seat.old).nones ≡ 0) }
    requires returned { HasReturned deal.now.table.shared.table_id seat.old }
    ensures of { IsSeatOf deal.now seat.new × Rests seat.new }
    ensures returned { HasReturned deal.now.table.shared.table_id seat.new }
    ensures open { MatchOption result ((knows seat.new).nones ≡ 1) (λ _. (knows seat.new).nones ≡ 0) }
{
    let (index, item) = deal.draw(seat)?;
    deal.give_back(seat, index, item);
    Some((index, item))
}

#[test]
fn two_seats_draw_three_items(rt: HostRuntime) -> Result<(), Fail> {
    let mut items = Vec::new(rt.alloc());
    items.push(10u8)?;
    items.push(20u8)?;
    items.push(30u8)?;
    let (deal, mut seats) = Deal::build(rt.alloc(), items, 2)?;
    let mut second = seats.pop().unwrap();
    let mut first = seats.pop().unwrap();
    let Some(zeroth) = turn(&deal, &mut first) else {
        panic!(rt; "an item was left")
    };
    let Some(next) = turn(&deal, &mut first) else {
        panic!(rt; "an item was left")
    };
    let Some(last) = turn(&deal, &mut second) else {
        panic!(rt; "an item was left")
    };
    assert!(rt; zeroth == (0, 10) && next == (1, 20) && last == (2, 30));
    assert!(rt; turn(&deal, &mut second).is_none());
    assert!(rt; turn(&deal, &mut first).is_none());
    seats.push(first)?;
    seats.push(second)?;
    let items = deal.close(rt.alloc(), seats)?;
    assert!(rt; items.as_slice() == [10, 20, 30].as_slice());
    Ok(())
}
