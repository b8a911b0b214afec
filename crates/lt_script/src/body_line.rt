//! One line of the body.
ghost use Rattle.std.specs.Prelude.{◌≡◌, ◌++◌, ◌∷◌, [], IfOk, IfErr, OnOk, Some, None};
ghost use Rattle.lt_ranges.specs.declared.key.Key.{Key};
ghost use Rattle.lt_ranges.specs.Interval.{Interval};
ghost use Rattle.lt_store.specs.declared.op.Move.{Move};
ghost use Rattle.lt_store.specs.declared.op.Op.{Op};
ghost use Rattle.lt_store.specs.declared.op.Op.TheVariants as Op;
ghost use Rattle.lt_trace.specs.Reading.{IsKeyWord, AreEnds};
ghost use Rattle.lt_trace.specs.Grammar.{OrNoMemory};
ghost use Rattle.lt_script.specs.Grammar.{IsForm, move_text, fault_of_op, fault_of_turn, fault_of_form};
ghost use Rattle.lt_script.specs.Reading.{Says, IsFormFault};

use crate::body::Body;
use crate::form::{Said, read_form};
use lt_ranges::{Key, KeyRange};
use lt_store::{Move, Op};
use lt_trace::{Ends, KeyWord, MOST_TXNS, TraceFault};

/// The key that a line names, unless it is too long.
fn key_of(number: u32, word: KeyWord) -> Result<Key, TraceFault>
    ensures found { (key : Key) → IsKeyWord word key →
        IfOk result (λ found. (found ≡ key) × (fault_of_op number (Op.Get key) ≡ None)) }
    ensures fault { (key : Key) → IsKeyWord word key → IfErr result (λ f. fault_of_op number (Op.Get key) ≡ Some f) }
{
    match word {
        KeyWord::Fits(key) => Ok(key),
        KeyWord::Long => Err(TraceFault::KeyTooLong { line: number }),
    }
}

/// The range that a line names, unless its keys are a fault.
fn range_of(number: u32, ends: Ends) -> Result<KeyRange, TraceFault>
    ensures found { (range : Interval) → AreEnds ends range →
        IfOk result (λ found. (found ≡ range) × (fault_of_op number (Op.Scan range) ≡ None)) }
    ensures fault { (range : Interval) → AreEnds ends range → IfErr result (λ f. fault_of_op number (Op.Scan range) ≡ Some f) }
{
    let Ends::Fit { left, right } = ends else {
        return Err(TraceFault::KeyTooLong { line: number });
    };
    match KeyRange::new(left, right) {
        Ok(range) => Ok(range),
        Err(_) => Err(TraceFault::Backwards { line: number }),
    }
}

/// The operation that a line asks for, unless its keys are a fault.
fn op_of(number: u32, said: Said) -> Result<Op, TraceFault>
    ensures found { (op : Op) → Says said op → IfOk result (λ found. (found ≡ op) × (fault_of_op number op ≡ None)) }
    ensures fault { (op : Op) → Says said op → IfErr result (λ f. fault_of_op number op ≡ Some f) }
{
    match said {
        Said::Get { key } => {
            let key = key_of(number, key)?;
            Ok(Op::Get { key })
        }
        Said::Put { key, value } => {
            let key = key_of(number, key)?;
            Ok(Op::Put { key, value })
        }
        Said::Scan { ends } => {
            let range = range_of(number, ends)?;
            Ok(Op::Scan { range })
        }
        Said::Commit => Ok(Op::Commit),
        Said::Abort => Ok(Op::Abort),
    }
}

/// Refuses one more move of the transaction behind these where that is a fault.
fn check_turn(number: u32, before: &Body, txn: u64) -> Result<(), TraceFault>
    ensures good { OnOk result (fault_of_turn number before.now txn ≡ None) }
    ensures fault { IfErr result (λ f. fault_of_turn number before.now txn ≡ Some f) }
{
    if before.has_ended(txn) {
        return Err(TraceFault::AfterEnd { line: number });
    }
    if !before.has_begun(txn) && before.txns() >= MOST_TXNS {
        return Err(TraceFault::TooManyTxns { line: number });
    }
    Ok(())
}

/// Puts the move that the text spells behind the others, unless something is wrong with it.
pub(crate) fn add_move(body: &mut Body, number: u32, text: &[u8]) -> Result<(), TraceFault>
    ensures added { OnOk result ((m : Move) × IsForm m × (text.now ≡ move_text m)
        × (fault_of_form number body.old (Some m) ≡ None) × (body.new ≡ body.old ++ m ∷ [])) }
    ensures fault { IfErr result (OrNoMemory (IsFormFault body.old number text.now)) }
{
    let Some((txn, said)) = read_form(text) else {
        return Err(TraceFault::BadLine { line: number });
    };
    let op = op_of(number, said)?;
    check_turn(number, body, txn)?;
    body.push(Move { txn, op })?;
    Ok(())
}
