//! The rows that the calls of one pass leave, walked from the tree's anchor.
ghost use Rattle.std.specs.Prelude.{◌≡◌, ◌<◌, ◌≤◌};
ghost use Rattle.lt_seq.specs.Yard.{IsPlan};
ghost use Rattle.lt_rows.specs.Handles.{knows, IsPassOf, IsSamePass};
ghost use Rattle.lt_tree.specs.States.{HoldsNone};
ghost use Rattle.lt_locktree.specs.Calls.{IsOfTable, StaysOf};

use crate::locktree::Locktree;
use crate::tests::{asked, may_ask, one_pass};
use crate::tree_pass::TreePass;
use lt_ranges::{Key, KeyRange};
use lt_rows::{RowImage, RowPass, RowTable, Take};
use lt_seq::{Reply, YardPlan};
use std::alloc::{AllocError, Global};
use std::test::Fail;

fn plan(limit: u64, buffer: u64) -> YardPlan
    requires limit { (1 ≤ limit) × (limit ≤ 2000) }
    requires buffer { buffer < 3 }
    ensures { IsPlan result × (result.trees ≡ 1) }
{
    YardPlan {
        trees: 1,
        limit,
        buffer,
        passes: 1,
        first: 0,
    }
}

fn digit(n: u32) -> u8 {
    b'0' + (n % 10) as u8
}

/// The key of a number, as five digits.
fn key(n: u32) -> Key {
    let digits = [
        digit(n / 10000),
        digit(n / 1000),
        digit(n / 100),
        digit(n / 10),
        digit(n),
    ];
    match Key::new(&digits) {
        Ok(key) => key,
        Err(_) => Key::Below,
    }
}

fn point(n: u32) -> KeyRange {
    match KeyRange::new(key(n), key(n)) {
        Ok(range) => range,
        Err(_) => KeyRange::whole(),
    }
}

/// Reads a row with a pass that holds none.
pub(crate) fn read_row(table: &RowTable, pass: &mut RowPass, row: u32) -> Option<RowImage>
    requires of { IsPassOf table.now pass.old }
    requires right { 0 < pass.old.rights }
    requires none { HoldsNone (knows pass.old) }
    ensures of { IsPassOf table.now pass.new × IsSamePass pass.old pass.new }
    ensures none { HoldsNone (knows pass.new) }
{
    if u64::from(row) > table.plan().limit {
        return None;
    }
    match table.take(pass, row) {
        Take::Taken => {
            let image = table.load_row(pass, row);
            table.put(pass, row);
            Some(image)
        }
        Take::HeldBy(_) => None,
    }
}

/// The row that a link names.
fn named(link: u64) -> Option<u32> {
    u32::try_from(link.checked_sub(1)?).ok()
}

/// The rows that hang from some rows.
fn below(
    alloc: Global,
    table: &RowTable,
    pass: &mut RowPass,
    rows: &[u32],
) -> Result<Vec<u32>, AllocError>
    requires of { IsPassOf table.now pass.old }
    requires right { 0 < pass.old.rights }
    requires none { HoldsNone (knows pass.old) }
    ensures of { IsPassOf table.now pass.new × IsSamePass pass.old pass.new }
    ensures none { HoldsNone (knows pass.new) }
{
    let mut found = Vec::new(alloc);
    for row in rows {
        let Some(image) = read_row(table, pass, *row) else {
            return Ok(Vec::new(alloc));
        };
        if let Some(left) = named(image.left()) {
            found.push(left)?;
        }
        if let Some(right) = named(image.right()) {
            found.push(right)?;
        }
    }
    Ok(found)
}

/// How many rows stand below the anchor of tree 0, and how many of them on the longest path.
fn shape(
    alloc: Global,
    table: &RowTable,
    pass: &mut RowPass,
) -> Result<Option<(usize, usize)>, AllocError>
    requires of { IsPassOf table.now pass.old }
    requires right { 0 < pass.old.rights }
    requires none { HoldsNone (knows pass.old) }
{
    let mut count: usize = 0;
    let mut level = Vec::new(alloc);
    level.push(0)?;
    for depth in 0..2000 {
        level = below(alloc, table, pass, &level)?;
        if level.is_empty() {
            return Ok(Some((count, depth)));
        }
        count = count.saturating_add(level.len());
    }
    Ok(None)
}

/// The shape of tree 0 of a table with this one pass.
fn shape_of(
    alloc: Global,
    table: &Locktree,
    pass: TreePass,
) -> Result<Option<(usize, usize)>, AllocError>
    requires of { IsOfTable table.now pass }
{
    let mut pass = pass.into_rows();
    if pass.rights() == 0 {
        return Ok(None);
    }
    shape(alloc, table.table(), &mut pass)
}

/// An order in which points are asked for.
#[derive(Clone, Copy, Debug)]
enum Order {
    Ascending,
    Descending,
    /// The least that is left, and the greatest, in turn.
    Zigzag,
}

/// How many points are asked for.
const POINTS: u32 = 1000;

/// The number of the point that is asked for in turn `n`, below the number of points.
fn nth(order: Order, n: u32) -> u32
    requires turn { n < 1000 }
{
    match order {
        Order::Ascending => n,
        Order::Descending => POINTS - 1 - n,
        Order::Zigzag if n % 2 == 0 => n / 2,
        Order::Zigzag => POINTS - 1 - n / 2,
    }
}

/// Asks for all points in this order: whether each was granted.
fn ask_points(table: &Locktree, pass: &mut TreePass, order: Order) -> bool
    requires of { IsOfTable table.now pass.old × (0 < table.now.rows.plan.trees) }
    ensures of { StaysOf table.now pass.old pass.new }
{
    let mut granted = true;
    for n in 0..POINTS {
        let range = point(nth(order, n));
        granted = granted && matches!(asked(table, pass, 1, &range), Some(Reply::Granted));
    }
    granted
}

/// The longest path that a simulation of the rule of rotations leaves (`checks/rotations.py`) is the one that the rows have.
#[test]
fn asks_in_order_leave_no_long_path(rt: HostRuntime) -> Result<(), Fail> {
    for (order, path) in [
        (Order::Ascending, 11),
        (Order::Descending, 11),
        (Order::Zigzag, 16),
    ] {
        let Some((table, pass)) = one_pass(rt.alloc(), &plan(2000, 0))? else {
            assert!(rt; false, "no pass");
            return Ok(());
        };
        let mut pass = pass;
        assert!(rt; ask_points(&table, &mut pass, order));
        match shape_of(rt.alloc(), &table, pass)? {
            Some((rows, longest)) => assert_eq!(rt; (rows, longest), (1000, path)),
            None => assert!(rt; false, "the rows are no tree"),
        }
    }
    Ok(())
}

#[test]
fn another_ones_question_lays_a_buffer_out_as_a_tree(rt: HostRuntime) -> Result<(), Fail> {
    let Some((table, pass)) = one_pass(rt.alloc(), &plan(4, 2))? else {
        assert!(rt; false, "no pass");
        return Ok(());
    };
    let mut pass = pass;
    assert!(rt;
        matches!(
            asked(&table, &mut pass, 1, &point(3)),
            Some(Reply::Buffered)
        )
    );
    assert!(rt;
        matches!(
            asked(&table, &mut pass, 1, &point(1)),
            Some(Reply::Buffered)
        )
    );
    if may_ask(&table, &mut pass) {
        match table.who(&mut pass, 2, 2, 0, &point(3)) {
            Ok(named) => assert!(rt; named.owners.as_slice() == [1].as_slice()),
            Err(_) => assert!(rt; false, "no answer"),
        }
    }
    assert!(rt; matches!(asked(&table, &mut pass, 2, &point(2)), Some(Reply::Granted)));
    match shape_of(rt.alloc(), &table, pass)? {
        Some((rows, longest)) => assert!(rt; rows == 3 && longest <= 3),
        None => assert!(rt; false, "the rows are no tree"),
    }
    Ok(())
}

#[test]
fn a_join_of_two_neighbours_gives_a_row_back(rt: HostRuntime) -> Result<(), Fail> {
    let Some((table, pass)) = one_pass(rt.alloc(), &plan(4, 0))? else {
        assert!(rt; false, "no pass");
        return Ok(());
    };
    let mut pass = pass;
    for n in 0..2 {
        assert!(rt; matches!(asked(&table, &mut pass, 1, &point(n)), Some(Reply::Granted)));
    }
    assert!(rt; table.look(&mut pass).used == 2);
    if may_ask(&table, &mut pass) {
        match table.escalate(&mut pass, 1, 0) {
            Ok(note) => assert!(rt; note.place == 2 && note.before == 2 && note.after == 1),
            Err(_) => assert!(rt; false, "no answer"),
        }
    }
    assert!(rt; table.look(&mut pass).used == 1);
    assert!(rt; shape_of(rt.alloc(), &table, pass)? == Some((1, 1)));
    Ok(())
}
