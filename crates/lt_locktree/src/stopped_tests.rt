//! Calls beside a pass that stopped for ever while it held a row.
ghost use Rattle.std.specs.Prelude.{◌≡◌, ◌<◌, IfOk, IfSome};
ghost use Rattle.lt_rows.specs.Handles.{knows, IsPassOf, IsSamePass};
ghost use Rattle.lt_tree.specs.States.{HoldsNone};
ghost use Rattle.lt_locktree.specs.Calls.{IsOfTable, StaysOf};

use crate::locktree::Locktree;
use crate::row_tests::read_row;
use crate::test_calls::{Answer, Call, plan, said};
use crate::tree_pass::TreePass;
use lt_rows::{RowPass, RowTable, Take};
use std::alloc::{AllocError, Global};
use std::test::Fail;

/// The rows that a pass which holds none finds held, among those that stand before the last few.
fn held_rows(alloc: Global, table: &RowTable, pass: &mut RowPass) -> Result<Vec<u32>, AllocError>
    requires of { IsPassOf table.now pass.old }
    requires right { 0 < pass.old.rights }
    requires none { HoldsNone (knows pass.old) }
{
    let mut held = Vec::new(alloc);
    for row in 0..64 {
        if read_row(table, pass, row).is_none() {
            held.push(row)?;
        }
    }
    Ok(held)
}

/// A table of two trees with three passes of a right each.
fn three_passes(
    alloc: Global,
) -> Result<Option<(Locktree, TreePass, TreePass, TreePass)>, AllocError>
    ensures of { IfOk result (λ o. IfSome o (λ r. IsOfTable r.0 r.1 × IsOfTable r.0 r.2 × IsOfTable r.0 r.3
        × (r.0.rows.plan.trees ≡ 2))) }
{
    let (table, passes) = Locktree::build(alloc, &plan(2, 0, 3, 0))?;
    let mut passes = passes;
    let Some(mut three) = passes.pop() else {
        return Ok(None);
    };
    let Some(mut two) = passes.pop() else {
        return Ok(None);
    };
    let Some(mut one) = passes.pop() else {
        return Ok(None);
    };
    if one.rights() < 3 {
        return Ok(None);
    }
    let note = table.share(&mut one, 1);
    table.learn(&mut two, note);
    let note = table.share(&mut one, 1);
    table.learn(&mut three, note);
    Ok(Some((table, one, two, three)))
}

/// The pass with this row taken, where nobody held it.
fn stopped_at(table: &Locktree, pass: TreePass, row: u32) -> Option<RowPass>
    requires of { IsOfTable table.now pass }
{
    let mut rows = pass.into_rows();
    if rows.rights() == 0 || u64::from(row) > table.plan().limit {
        return None;
    }
    match table.table().take(&mut rows, row) {
        Take::Taken => Some(rows),
        Take::HeldBy(_) => None,
    }
}

/// What a call by the second pass answered beside the first, which has stopped, the place of the next event behind it, and the rows
/// that the third pass finds held then.
#[derive(Drop)]
struct Seen {
    said: Answer,
    place: u64,
    held: Vec<u32>,
}

/// Has the first transaction ask for m, f and t in tree 0, stops a pass for ever with a row, and makes the call.
fn beside(alloc: Global, row: u32, call: Call) -> Result<Option<Seen>, AllocError> {
    let Some((table, one, mut two, three)) = three_passes(alloc)? else {
        return Ok(None);
    };
    let asked = [
        said(&table, &mut two, Call::Ask(1, 0, b'm')),
        said(&table, &mut two, Call::Ask(1, 0, b'f')),
        said(&table, &mut two, Call::Ask(1, 0, b't')),
    ];
    if asked != [Answer::Granted(0), Answer::Granted(1), Answer::Granted(2)] {
        return Ok(None);
    }
    let Some(_stopped) = stopped_at(&table, one, row) else {
        return Ok(None);
    };
    let said = said(&table, &mut two, call);
    let place = table.look(&mut two).place;
    let mut reader = three.into_rows();
    if reader.rights() == 0 {
        return Ok(None);
    }
    let held = held_rows(alloc, table.table(), &mut reader)?;
    Ok(Some(Seen { said, place, held }))
}

/// The anchor of tree 0, the pool's anchor, the row of f below that of m, and the pool's first row behind m, f and t.
const ANCHOR: u32 = 0;

const POOL: u32 = 2;

const ROW_OF_F: u32 = 4;

const VACANT: u32 = 6;

/// The row that is held for ever, the call, and its answer.
const CASES: [(u32, Call, Answer); 28] = [
    (ANCHOR, Call::Ask(2, 0, b'u'), Answer::Busy(ANCHOR, 0)),
    (ANCHOR, Call::Free(1, 0, b't'), Answer::Busy(ANCHOR, 0)),
    (ANCHOR, Call::FirstFree(1, 0, b't'), Answer::Busy(ANCHOR, 0)),
    (ANCHOR, Call::Who(2, 0, b't'), Answer::Busy(ANCHOR, 0)),
    (ANCHOR, Call::Join(2, 0), Answer::Busy(ANCHOR, 0)),
    (ANCHOR, Call::Ask(2, 1, b'u'), Answer::Granted(3)),
    (ANCHOR, Call::Free(2, 1, b't'), Answer::Freed(3, 0)),
    (ANCHOR, Call::Who(2, 1, b't'), Answer::Named(3, 0)),
    (ANCHOR, Call::Join(2, 1), Answer::Joined(3, 0)),
    (ROW_OF_F, Call::Ask(2, 0, b'e'), Answer::Busy(ROW_OF_F, 0)),
    (ROW_OF_F, Call::Free(1, 0, b'f'), Answer::Busy(ROW_OF_F, 0)),
    (ROW_OF_F, Call::Who(2, 0, b'f'), Answer::Busy(ROW_OF_F, 0)),
    (ROW_OF_F, Call::Join(2, 0), Answer::Busy(ROW_OF_F, 0)),
    (ROW_OF_F, Call::Ask(2, 0, b'u'), Answer::Granted(3)),
    (ROW_OF_F, Call::Ask(2, 0, b'm'), Answer::HeldBy(3, 1)),
    (ROW_OF_F, Call::Free(1, 0, b't'), Answer::Freed(3, 1)),
    (ROW_OF_F, Call::Who(2, 0, b't'), Answer::Named(3, 1)),
    (POOL, Call::Ask(2, 0, b'u'), Answer::Busy(POOL, 0)),
    (POOL, Call::Free(1, 0, b't'), Answer::Busy(POOL, 0)),
    (POOL, Call::Join(2, 0), Answer::Busy(POOL, 0)),
    (POOL, Call::Ask(2, 0, b'm'), Answer::HeldBy(3, 1)),
    (POOL, Call::Ask(1, 0, b'm'), Answer::Granted(3)),
    (POOL, Call::Free(1, 0, b'u'), Answer::Freed(3, 0)),
    (POOL, Call::Who(2, 0, b't'), Answer::Named(3, 1)),
    (VACANT, Call::Ask(2, 0, b'u'), Answer::Busy(VACANT, 0)),
    (VACANT, Call::Ask(2, 0, b'm'), Answer::HeldBy(3, 1)),
    (VACANT, Call::Free(1, 0, b't'), Answer::Freed(3, 1)),
    (VACANT, Call::Who(2, 0, b't'), Answer::Named(3, 1)),
];

/// Whoever needs the row is busy with it and makes no event; each other answers as ever. In both cases it has given back all that it took.
#[test]
fn a_pass_that_stops_with_a_row_stops_only_those_who_need_it(rt: HostRuntime) -> Result<(), Fail> {
    for (row, call, answer) in CASES {
        let Some(seen) = beside(rt.alloc(), row, call)? else {
            assert!(rt; false, "no pass stopped");
            return Ok(());
        };
        assert_eq!(rt; seen.said, answer, "at {row} {call:?}");
        let place = match answer {
            Answer::Busy(_, _) => 3,
            _ => 4,
        };
        assert_eq!(rt; seen.place, place, "at {row} {call:?}");
        assert_eq!(rt; seen.held.as_slice(), [row].as_slice(), "at {row} {call:?}");
    }
    Ok(())
}
