//! The calls of the plain table that make events.
ghost use Rattle.std.specs.Prelude.{◌≡◌, ◌<◌, ◌≤◌, List, [], length, OnOk, IfErr};
ghost use Rattle.lt_seq.specs.declared.event.Deed.TheVariants.{Ask, Free, Who, Join};
ghost use Rattle.lt_seq.specs.declared.event.Reply.TheVariants.{Granted};
ghost use Rattle.lt_seq.specs.declared.event.Receipt.{Receipt};
ghost use Rattle.lt_seq.specs.Table.{used};
ghost use Rattle.lt_seq.specs.History.{after};
ghost use Rattle.lt_seq.specs.SeqPass.{plain};
ghost use Rattle.lt_seq.specs.SeqCalls.{HasJoined, JoinsStop};
ghost use Rattle.lt_seq.specs.Yard.{Answers, AskAnswers, AskAnswered, AreNoneOrAll, HasAll, bar_for};

use crate::event::Receipt;
use crate::fault::Fault;
use crate::plan::YardPlan;
use crate::seq_pass::SeqPass;
use lt_ranges::KeyRange;

/// The rows in use at which an ask makes joins, and behind them is out of locks.
pub(crate) fn bar_for(plan: &YardPlan, big: bool) -> u64
    ensures { result ≡ bar_for (plain plan.now) big }
{
    if big {
        plan.limit - plan.limit / 2
    } else {
        plan.limit
    }
}

/// Frees in a tree, where there is a place for the event.
pub(crate) fn free(
    pass: &mut SeqPass,
    txn: u64,
    tree: u32,
    range: &KeyRange,
    first: bool,
) -> Result<Receipt, Fault>
    requires tree { tree < pass.old.plan.trees }
    ensures plan { pass.new.plan ≡ pass.old.plan }
    ensures answer { Answers (plain pass.old.plan) pass.old.view pass.new.view txn (Free tree range.now first 0) result }
{
    pass.place()?;
    Ok(pass.free(txn, tree, range, first)?)
}

/// Asks for owners in a tree, where there is a place for the event.
pub(crate) fn who(
    pass: &mut SeqPass,
    txn: u64,
    as_txn: u64,
    tree: u32,
    range: &KeyRange,
) -> Result<Receipt, Fault>
    requires tree { tree < pass.old.plan.trees }
    ensures plan { pass.new.plan ≡ pass.old.plan }
    ensures answer { Answers (plain pass.old.plan) pass.old.view pass.new.view txn (Who tree range.now as_txn []) result }
{
    pass.place()?;
    Ok(pass.who(txn, as_txn, tree, range)?)
}

/// Joins a tree, where there is a place for the event.
pub(crate) fn join(pass: &mut SeqPass, txn: u64, tree: u32) -> Result<Receipt, Fault>
    requires tree { tree < pass.old.plan.trees }
    ensures plan { pass.new.plan ≡ pass.old.plan }
    ensures answer { Answers (plain pass.old.plan) pass.old.view pass.new.view txn (Join tree 0 0) result }
{
    pass.place()?;
    Ok(pass.join(txn, tree)?)
}

/// Joins all trees, in ascending order.
fn join_all(pass: &mut SeqPass, txn: u64, trees: u32, _bar: u64) -> Result<(), Fault>
    requires trees { trees ≡ pass.old.plan.trees }
    requires all { HasAll (plain pass.old.plan) pass.old.view }
    requires full { _bar ≤ used (after (plain pass.old.plan) pass.old.view.front) }
    ensures plan { pass.new.plan ≡ pass.old.plan }
    ensures ok { OnOk result (HasJoined (plain pass.old.plan) _bar pass.old.view pass.new.view txn trees) }
    ensures err { IfErr result (JoinsStop (plain pass.old.plan) _bar pass.old.view pass.new.view txn trees) }
{
    for tree in 0..trees {
        join(pass, txn, tree)?;
    }
    Ok(())
}

/// Asks where there is a place and a row below the bar. Behind the joins of all trees it is out of locks where there is
/// no such row.
pub(crate) fn ask_below(
    pass: &mut SeqPass,
    txn: u64,
    tree: u32,
    range: &KeyRange,
    bar: u64,
) -> Result<Receipt, Fault>
    requires tree { tree < pass.old.plan.trees }
    ensures plan { pass.new.plan ≡ pass.old.plan }
    ensures answer { (joins : List Receipt) → AreNoneOrAll (plain pass.old.plan) joins
        → (bar ≤ used (after (plain pass.old.plan) pass.old.view.front) → length joins ≡ pass.old.plan.trees)
        → AskAnswered (plain pass.old.plan) bar joins pass.old.view pass.new.view txn (Ask tree range.now Granted) result }
{
    let place = pass.place()?;
    let look = pass.look();
    if look.used >= bar {
        return Err(Fault::OutOfLocks {
            place,
            used: look.used,
        });
    }
    Ok(pass.ask(txn, tree, range)?)
}

/// Joins all trees, and asks then.
pub(crate) fn join_and_ask(
    pass: &mut SeqPass,
    trees: u32,
    txn: u64,
    tree: u32,
    range: &KeyRange,
    bar: u64,
) -> Result<Receipt, Fault>
    requires all { HasAll (plain pass.old.plan) pass.old.view }
    requires trees { trees ≡ pass.old.plan.trees }
    requires tree { tree < pass.old.plan.trees }
    requires full { bar ≤ used (after (plain pass.old.plan) pass.old.view.front) }
    ensures plan { pass.new.plan ≡ pass.old.plan }
    ensures answer { AskAnswers (plain pass.old.plan) bar pass.old.view pass.new.view txn (Ask tree range.now Granted) result }
{
    join_all(pass, txn, trees, bar)?;
    ask_below(pass, txn, tree, range, bar)
}
