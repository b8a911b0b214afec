//! Asks, and the limit of the rows in use.
ghost use Rattle.std.specs.Prelude.{◌≡◌, ◌<◌, ◌≤◌, IfOk, IfErr, IfSome, IfNone, OnOk};
ghost use Rattle.lt_locktree.specs.Calls.{sees, IsOfTable, StaysOf};
ghost use Rattle.lt_c.specs.Behind.{Faults};
ghost use Rattle.lt_c.specs.Limit.{JoinsTree, AsksBelow, AskAnswered, AskAnswers};

use crate::deeds::join;
use crate::looking::look_for_place;
use lt_locktree::{Asked, Locktree, TreePass};
use lt_ranges::KeyRange;
use lt_seq::Fault;

/// How many trees an ask joined, and what it came to behind that.
#[derive(Debug, Drop)]
pub struct Limited {
    pub joins: u32,
    pub answer: Result<Asked, Fault>,
}

/// Asks where its look shows a row below the limit. Where it shows none, it joins the first tree, and answers `None`.
fn ask_or_join(
    table: &Locktree,
    pass: &mut TreePass,
    txn: u64,
    tree: u32,
    range: &KeyRange,
) -> Result<Option<Asked>, Fault>
    requires of { IsOfTable table.now pass.old }
    requires right { 0 < (sees pass.old).rights }
    requires txn { 0 < txn }
    requires tree { tree < table.now.rows.plan.trees }
    ensures of { StaysOf table.now pass.old pass.new }
    ensures asked { IfOk result (λ found. IfSome found (AsksBelow (sees pass.old) (sees pass.new) txn tree range.now)) }
    ensures joined { IfOk result (λ found. IfNone found (JoinsTree (sees pass.old) (sees pass.new) txn 0)) }
    ensures faults { IfErr result (Faults (sees pass.old) (sees pass.new)) }
{
    let look = look_for_place(table, pass)?;
    if look.used < table.plan().limit {
        let asked = table.ask(pass, txn, tree, range)?;
        return Ok(Some(asked));
    }
    table.escalate(pass, txn, 0)?;
    Ok(None)
}

/// Looks behind the joins of all trees, and asks where there is a row below the limit.
fn ask_at_last(
    table: &Locktree,
    pass: &mut TreePass,
    txn: u64,
    tree: u32,
    range: &KeyRange,
) -> Result<Asked, Fault>
    requires of { IsOfTable table.now pass.old }
    requires right { 0 < (sees pass.old).rights }
    requires txn { 0 < txn }
    requires tree { tree < table.now.rows.plan.trees }
    ensures of { StaysOf table.now pass.old pass.new }
    ensures answer { AskAnswered (sees pass.old) (sees pass.new) table.now.rows.plan.trees txn tree range.now result }
{
    let look = look_for_place(table, pass)?;
    if look.used >= table.plan().limit {
        return Err(Fault::OutOfLocks {
            place: look.place,
            used: look.used,
        });
    }
    table.ask(pass, txn, tree, range)
}

/// Asks for a range. Where the rows in use have reached the limit, it joins all trees first.
///
/// `Busy` comes only where a row was met that another pass holds. Joins that were made stand, whatever the answer is.
pub(crate) fn ask(
    table: &Locktree,
    pass: &mut TreePass,
    txn: u64,
    tree: u32,
    range: &KeyRange,
) -> Limited
    requires of { IsOfTable table.now pass.old }
    requires right { 0 < (sees pass.old).rights }
    requires txn { 0 < txn }
    requires tree { tree < table.now.rows.plan.trees }
    ensures of { StaysOf table.now pass.old pass.new }
    ensures answer { AskAnswers (sees pass.old) (sees pass.new) result.joins txn tree range.now result.answer }
{
    match ask_or_join(table, pass, txn, tree, range) {
        Err(fault) => {
            return Limited {
                joins: 0,
                answer: Err(fault),
            };
        }
        Ok(Some(asked)) => {
            return Limited {
                joins: 0,
                answer: Ok(asked),
            };
        }
        Ok(None) => {}
    }
    for next in 1..table.plan().trees {
        if let Err(fault) = join(table, pass, txn, next) {
            return Limited {
                joins: next,
                answer: Err(fault),
            };
        }
    }
    Limited {
        joins: table.plan().trees,
        answer: ask_at_last(table, pass, txn, tree, range),
    }
}
