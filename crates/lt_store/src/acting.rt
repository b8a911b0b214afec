//! What a transaction does on the rows.
ghost use Rattle.std.specs.Prelude.{◌≡◌, [], ◌∷◌, ◌++◌, IfOk, OnOk};
ghost use Rattle.lt_store.specs.Rerun.{answer_on, map_after};
ghost use Rattle.lt_store.specs.Undoing.{undo_op, unwound, CanUnwind};
ghost use Rattle.lt_store.specs.Acting.{did};
ghost use Rattle.lt_store.specs.Rows.{find, put};

use crate::answer::Answer;
use crate::done::Done;
use crate::op::Op;
use crate::open::Open;
use crate::rows::Rows;
use crate::undo::Undo;
use lt_ranges::Key;
use std::alloc::{AllocError, Global};

/// What an operation answers on the rows.
fn answer_on(rows: &Rows, alloc: Global, op: &Op) -> Result<Answer, AllocError>
    ensures { IfOk result (λ answer. answer ≡ answer_on rows.now op.now) }
{
    match op {
        Op::Get { key } => Ok(Answer::Value(rows.find(key))),
        Op::Put { .. } => Ok(Answer::Stored),
        Op::Scan { range } => {
            let found = rows.inside(alloc, range)?;
            Ok(Answer::Rows(found))
        }
        Op::Commit => Ok(Answer::Committed),
        Op::Abort => Ok(Answer::Aborted),
    }
}

/// Puts a value, and keeps what undoes it.
fn put(rows: &mut Rows, acts: &mut Open, key: &Key, value: u64) -> Result<(), AllocError>
    ensures rows { OnOk result (rows.new ≡ put rows.old key.now value) }
    ensures acts { OnOk result (acts.new ≡ record acts.old { undo = acts.old.undo ++ record { key = key.now; old = find rows.old key.now } ∷ [] }) }
{
    let old = rows.find(key);
    acts.add_undo(key, old)?;
    rows.put(key, value)
}

/// Makes of the rows what an operation makes of them.
fn change(rows: &mut Rows, acts: &mut Open, op: &Op) -> Result<(), AllocError>
    ensures rows { OnOk result (rows.new ≡ map_after rows.old op.now) }
    ensures acts { OnOk result (acts.new ≡ record acts.old { undo = acts.old.undo ++ undo_op rows.old op.now }) }
{
    match op {
        Op::Put { key, value } => put(rows, acts, key, *value),
        Op::Get { .. } | Op::Scan { .. } | Op::Commit | Op::Abort => Ok(()),
    }
}

/// Does an operation, and keeps it with its answer.
pub(crate) fn perform(
    rows: &mut Rows,
    acts: &mut Open,
    alloc: Global,
    op: &Op,
) -> Result<Answer, AllocError>
    ensures rows { OnOk result (rows.new ≡ map_after rows.old op.now) }
    ensures acts { OnOk result (acts.new ≡ did acts.old rows.old op.now) }
    ensures answer { IfOk result (λ answer. answer ≡ answer_on rows.old op.now) }
{
    let answer = answer_on(rows, alloc, op)?;
    let kept = answer_on(rows, alloc, op)?;
    change(rows, acts, op)?;
    acts.add(Done {
        op: *op,
        answer: kept,
    })?;
    Ok(answer)
}

/// Undoes puts, from the last to the first. It takes no memory.
pub(crate) fn unwind(rows: &mut Rows, undo: &[Undo])
    requires { CanUnwind rows.old undo.now }
    ensures { rows.new ≡ unwound rows.old undo.now }
{
    let mut left = undo.len();
    while left > 0 {
        left -= 1;
        let last = &undo[left];
        rows.restore(&last.key, last.old);
    }
}
