//! Calls by keys of one letter, and what they answer, for the tests.
ghost use Rattle.std.specs.Prelude.{◌≡◌, ◌<◌, ◌≤◌, [], IfOk, IfSome};
ghost use Rattle.lt_seq.specs.Yard.{IsPlan};
ghost use Rattle.lt_rows.specs.Plan.{with_marks};
ghost use Rattle.lt_locktree.specs.Calls.{IsOfTable, StaysOf};

use crate::answers::{Asked, Named};
use crate::locktree::Locktree;
use crate::tests::may_ask;
use crate::tree_pass::TreePass;
use lt_ranges::{Key, KeyRange};
use lt_seq::{Fault, JoinNote, Owners, Reply, YardPlan};
use std::alloc::{AllocError, Global};

/// A call by a transaction in a tree, for one letter.
#[derive(Clone, Copy, Debug)]
pub(crate) enum Call {
    Ask(u64, u32, u8),
    /// A free behind a release's first one.
    Free(u64, u32, u8),
    /// A release's first free.
    FirstFree(u64, u32, u8),
    /// Who is in the way of the transaction that asks.
    Who(u64, u32, u8),
    Join(u64, u32),
}

/// What a call answered: its event's place, and the only owner or 0, the ranges that went, or those behind a join. Or the row that was
/// met held, and its holder.
#[derive(Clone, Copy, Debug, PartialEq, Eq)]
pub(crate) enum Answer {
    Granted(u64),
    Buffered(u64),
    HeldBy(u64, u64),
    Freed(u64, u64),
    Named(u64, u64),
    Joined(u64, u64),
    Busy(u32, u32),
    Short,
    NoPlace,
}

fn only_of(owners: &Owners) -> u64 {
    match owners.as_slice() {
        [owner] => *owner,
        _ => 0,
    }
}

fn refused(fault: Fault) -> Answer {
    match fault {
        Fault::Busy { row, holder } => Answer::Busy(row, holder),
        _ => Answer::Short,
    }
}

fn asked(answer: Result<Asked, Fault>) -> Answer {
    match answer {
        Ok(asked) => match &asked.reply {
            Reply::Granted => Answer::Granted(asked.place),
            Reply::Buffered => Answer::Buffered(asked.place),
            Reply::HeldBy(owners) => Answer::HeldBy(asked.place, only_of(owners)),
        },
        Err(fault) => refused(fault),
    }
}

fn freed(answer: Result<(u64, u64), Fault>) -> Answer {
    match answer {
        Ok((place, count)) => Answer::Freed(place, count),
        Err(fault) => refused(fault),
    }
}

fn named(answer: Result<Named, Fault>) -> Answer {
    match answer {
        Ok(named) => Answer::Named(named.place, only_of(&named.owners)),
        Err(fault) => refused(fault),
    }
}

fn joined(answer: Result<JoinNote, Fault>) -> Answer {
    match answer {
        Ok(note) => Answer::Joined(note.place, note.after),
        Err(fault) => refused(fault),
    }
}

fn letter(byte: u8) -> Key {
    match Key::new(&[byte]) {
        Ok(key) => key,
        Err(_) => Key::Below,
    }
}

/// The range of one letter.
pub(crate) fn point(byte: u8) -> KeyRange {
    match KeyRange::new(letter(byte), letter(byte)) {
        Ok(range) => range,
        Err(_) => KeyRange::whole(),
    }
}

/// Makes the call. A transaction that is named 0 is taken for 1, and a tree behind the last for one of the others.
pub(crate) fn said(table: &Locktree, pass: &mut TreePass, call: Call) -> Answer
    requires of { IsOfTable table.now pass.old × (0 < table.now.rows.plan.trees) }
    ensures of { StaysOf table.now pass.old pass.new }
{
    if !may_ask(table, pass) {
        return Answer::NoPlace;
    }
    let trees = table.plan().trees;
    match call {
        Call::Ask(txn, tree, key) => {
            asked(table.ask(pass, txn.max(1), tree % trees, &point(key)))
        }
        Call::Free(txn, tree, key) => {
            freed(table.free(pass, txn, tree % trees, &point(key), false))
        }
        Call::FirstFree(txn, tree, key) => {
            freed(table.free(pass, txn, tree % trees, &point(key), true))
        }
        Call::Who(txn, tree, key) => { named(table.who(pass, txn, txn, tree % trees, &point(key))) }
        Call::Join(txn, tree) => joined(table.escalate(pass, txn, tree % trees)),
    }
}

/// A plan of at most 64 rows in the trees.
pub(crate) fn plan(trees: u32, buffer: u64, passes: u32, first: u64) -> YardPlan
    requires trees { (1 ≤ trees) × (trees ≤ 2) }
    requires buffer { buffer ≤ 4 }
    requires passes { (1 ≤ passes) × (passes ≤ 3) }
    requires first { first ≤ 549755813888 }
    ensures { IsPlan result × (result.trees ≡ trees) }
{
    YardPlan {
        trees,
        limit: 64,
        buffer,
        passes,
        first,
    }
}

/// A table with its two passes, of which each has a right.
pub(crate) fn two_passes(
    alloc: Global,
    plan: &YardPlan,
) -> Result<Option<(Locktree, TreePass, TreePass)>, AllocError>
    requires plan { IsPlan plan.now }
    ensures of { IfOk result (λ o. IfSome o (λ r. IsOfTable r.0 r.1 × IsOfTable r.0 r.2 × (r.0.rows.plan ≡ with_marks plan.now []))) }
{
    let (table, passes) = Locktree::build(alloc, plan)?;
    let mut passes = passes;
    let Some(mut last) = passes.pop() else {
        return Ok(None);
    };
    let Some(mut first) = passes.pop() else {
        return Ok(None);
    };
    if first.rights() < 2 {
        return Ok(None);
    }
    let note = table.share(&mut first, 1);
    table.learn(&mut last, note);
    Ok(Some((table, first, last)))
}
