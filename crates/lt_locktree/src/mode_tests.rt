//! The mode of a tree as its anchor shows it, and the last places of a history.
ghost use Rattle.std.specs.Prelude.{◌≡◌, ◌<◌};
ghost use Rattle.lt_rows.specs.Handles.{knows, IsPassOf, IsSamePass};
ghost use Rattle.lt_tree.specs.States.{HoldsNone};
ghost use Rattle.lt_locktree.specs.Calls.{IsOfTable, StaysOf};

use crate::locktree::Locktree;
use crate::test_calls::{Answer, Call, plan, point, said, two_passes};
use crate::tests::may_ask;
use crate::tree_pass::TreePass;
use lt_rows::{RowPass, RowTable};
use lt_seq::Mode;
use lt_tree::try_prepare;
use std::test::Fail;

/// The mode of tree 0, and the pass with which it is read.
fn mode(table: &RowTable, pass: RowPass) -> (RowPass, Option<Mode>)
    requires of { IsPassOf table.now pass × (0 < pass.rights) × (0 < table.now.plan.trees) }
    requires none { HoldsNone (knows pass) }
    ensures of { IsPassOf table.now result.0 × IsSamePass pass result.0 × HoldsNone (knows result.0) }
{
    let prepared = match try_prepare(table, pass, 0, 0) {
        Ok(prepared) => prepared,
        Err((pass, _)) => return (pass, None),
    };
    let anchor = prepared.anchor();
    let mode = if anchor.buffer_txn == 0 {
        Mode::Tree {
            score: anchor.score,
        }
    } else {
        Mode::Buffer {
            txn: anchor.buffer_txn,
            count: anchor.buffered,
        }
    };
    (prepared.cancel(), Some(mode))
}

#[test]
fn a_question_of_another_ends_a_buffer_with_the_score_0(rt: HostRuntime) -> Result<(), Fail> {
    let Some((table, mut one, two)) = two_passes(rt.alloc(), &plan(1, 2, 2, 0))? else {
        assert!(rt; false, "no passes");
        return Ok(());
    };
    let reader = two.into_rows();
    if reader.rights() == 0 {
        assert!(rt; false, "no right");
        return Ok(());
    }
    let (reader, fresh) = mode(table.table(), reader);
    assert_eq!(rt; fresh, Some(Mode::Tree { score: 100 }));
    assert_eq!(rt;
        said(&table, &mut one, Call::Ask(1, 0, b'a')),
        Answer::Buffered(0)
    );
    let (reader, begun) = mode(table.table(), reader);
    assert_eq!(rt; begun, Some(Mode::Buffer { txn: 1, count: 1 }));
    assert_eq!(rt;
        said(&table, &mut one, Call::Who(2, 0, b'a')),
        Answer::Named(1, 1)
    );
    let (_reader, ended) = mode(table.table(), reader);
    assert_eq!(rt; ended, Some(Mode::Tree { score: 0 }));
    Ok(())
}

/// Whether a look shows the second place of those at which no call may make an event, and no row in use.
fn is_past_the_end(table: &Locktree, pass: &mut TreePass) -> bool
    requires of { IsOfTable table.now pass.old }
    ensures of { StaysOf table.now pass.old pass.new }
{
    let look = table.look(pass);
    look.place == 549_755_813_889 && look.used == 0 && !may_ask(table, pass)
}

/// Both looked where one place was left, so each may still make an event. Behind these events nobody may.
#[test]
fn two_that_looked_at_the_last_place_make_an_event_each(rt: HostRuntime) -> Result<(), Fail> {
    let last = 549_755_813_887;
    let Some((table, mut one, mut two)) = two_passes(rt.alloc(), &plan(1, 0, 2, last))? else {
        assert!(rt; false, "no passes");
        return Ok(());
    };
    if !may_ask(&table, &mut one) || !may_ask(&table, &mut two) {
        assert!(rt; false, "no place is left");
        return Ok(());
    }
    match table.who(&mut one, 1, 1, 0, &point(b'a')) {
        Ok(named) => assert_eq!(rt; named.place, last),
        Err(_) => assert!(rt; false, "no answer"),
    }
    match table.who(&mut two, 2, 2, 0, &point(b'a')) {
        Ok(named) => assert_eq!(rt; named.place, last + 1),
        Err(_) => assert!(rt; false, "no answer to the other"),
    }
    assert!(rt; is_past_the_end(&table, &mut one) && is_past_the_end(&table, &mut two));
    Ok(())
}
