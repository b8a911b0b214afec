//! The line of numbers about a run.
ghost use Rattle.std.specs.Prelude.{◌≡◌, ◌++◌, OnOk, IfOk};
ghost use Rattle.std.specs.List.{flat_map};
ghost use Rattle.lt_ranges.specs.KeyText.{spaced};
ghost use Rattle.lt_history.specs.Summary.{is_granted, is_buffered, is_held, is_who, is_free, is_join, deeds};
ghost use Rattle.lt_history.specs.Summary.{is_done, is_aborted, is_deadlock, is_out_of_locks, ends};
ghost use Rattle.lt_history.specs.Summary.{ask_numbers, other_numbers, outcome_numbers, summary_line};

use crate::outcome::{Ended, Outcome};
use lt_ranges::push_spaced;
use lt_seq::{Deed, Receipt, Reply};
use std::alloc::{AllocError, Global};

/// One line about a run: its events, its asks that were granted, buffered and refused, its questions, frees and joins,
/// and its transactions that were done, aborted, in a deadlock and out of locks.
pub fn summary(
    alloc: Global,
    receipts: &[Receipt],
    outcomes: &[Ended],
) -> Result<Vec<u8>, AllocError>
    ensures { IfOk result (λ out. out.items ≡ summary_line receipts.now outcomes.now) }
{
    let mut out = Vec::new(alloc);
    out.extend_from_slice(b"sum")?;
    push_ask_numbers(&mut out, receipts)?;
    push_other_numbers(&mut out, receipts)?;
    push_outcome_numbers(&mut out, outcomes)?;
    out.extend_from_slice(b"\n")?;
    Ok(out)
}

/// Writes the number of the events, and of the asks by their replies.
fn push_ask_numbers(out: &mut Vec<u8>, receipts: &[Receipt]) -> Result<(), AllocError>
    ensures { OnOk result (out.new.items ≡ out.old.items ++ flat_map spaced (ask_numbers receipts.now)) }
{
    push_spaced(out, receipts.len() as u64)?;
    push_spaced(out, granted(receipts) as u64)?;
    push_spaced(out, buffered(receipts) as u64)?;
    push_spaced(out, held(receipts) as u64)
}

/// Writes the numbers of the other events.
fn push_other_numbers(out: &mut Vec<u8>, receipts: &[Receipt]) -> Result<(), AllocError>
    ensures { OnOk result (out.new.items ≡ out.old.items ++ flat_map spaced (other_numbers receipts.now)) }
{
    push_spaced(out, questions(receipts) as u64)?;
    push_spaced(out, frees(receipts) as u64)?;
    push_spaced(out, joins(receipts) as u64)
}

/// Writes the numbers of the transactions.
fn push_outcome_numbers(out: &mut Vec<u8>, outcomes: &[Ended]) -> Result<(), AllocError>
    ensures { OnOk result (out.new.items ≡ out.old.items ++ flat_map spaced (outcome_numbers outcomes.now)) }
{
    push_spaced(out, done(outcomes) as u64)?;
    push_spaced(out, aborted(outcomes) as u64)?;
    push_spaced(out, in_deadlock(outcomes) as u64)?;
    push_spaced(out, out_of_locks(outcomes) as u64)
}

/// Whether this is an ask that was granted, but for a buffer.
fn is_ask_granted(deed: &Deed) -> bool
    ensures { result ≡ is_granted deed.now }
{
    match deed {
        Deed::Ask { reply, .. } => matches!(reply, Reply::Granted),
        _ => false,
    }
}

/// Whether this is an ask that was granted into a buffer.
fn is_ask_buffered(deed: &Deed) -> bool
    ensures { result ≡ is_buffered deed.now }
{
    match deed {
        Deed::Ask { reply, .. } => matches!(reply, Reply::Buffered),
        _ => false,
    }
}

/// Whether this is an ask that was refused.
fn is_ask_held(deed: &Deed) -> bool
    ensures { result ≡ is_held deed.now }
{
    match deed {
        Deed::Ask { reply, .. } => matches!(reply, Reply::HeldBy(_)),
        _ => false,
    }
}

/// How many asks were granted, but for a buffer.
fn granted(receipts: &[Receipt]) -> usize
    ensures { result ≡ deeds is_granted receipts.now }
{
    receipts
        .iter()
        .filter(|receipt| is_ask_granted(&receipt.event.deed))
        .count()
}

/// How many asks were granted into a buffer.
fn buffered(receipts: &[Receipt]) -> usize
    ensures { result ≡ deeds is_buffered receipts.now }
{
    receipts
        .iter()
        .filter(|receipt| is_ask_buffered(&receipt.event.deed))
        .count()
}

/// How many asks were refused.
fn held(receipts: &[Receipt]) -> usize
    ensures { result ≡ deeds is_held receipts.now }
{
    receipts
        .iter()
        .filter(|receipt| is_ask_held(&receipt.event.deed))
        .count()
}

/// How many questions there are who holds a range.
fn questions(receipts: &[Receipt]) -> usize
    ensures { result ≡ deeds is_who receipts.now }
{
    receipts
        .iter()
        .filter(|receipt| matches!(receipt.event.deed, Deed::Who { .. }))
        .count()
}

/// How many frees there are.
fn frees(receipts: &[Receipt]) -> usize
    ensures { result ≡ deeds is_free receipts.now }
{
    receipts
        .iter()
        .filter(|receipt| matches!(receipt.event.deed, Deed::Free { .. }))
        .count()
}

/// How many joins there are.
fn joins(receipts: &[Receipt]) -> usize
    ensures { result ≡ deeds is_join receipts.now }
{
    receipts
        .iter()
        .filter(|receipt| matches!(receipt.event.deed, Deed::Join { .. }))
        .count()
}

/// How many transactions were done.
fn done(outcomes: &[Ended]) -> usize
    ensures { result ≡ ends is_done outcomes.now }
{
    outcomes
        .iter()
        .filter(|ended| matches!(ended.outcome, Outcome::Done))
        .count()
}

/// How many transactions were aborted.
fn aborted(outcomes: &[Ended]) -> usize
    ensures { result ≡ ends is_aborted outcomes.now }
{
    outcomes
        .iter()
        .filter(|ended| matches!(ended.outcome, Outcome::Aborted))
        .count()
}

/// How many transactions waited for themselves.
fn in_deadlock(outcomes: &[Ended]) -> usize
    ensures { result ≡ ends is_deadlock outcomes.now }
{
    outcomes
        .iter()
        .filter(|ended| matches!(ended.outcome, Outcome::Deadlock(_)))
        .count()
}

/// How many transactions found no row left.
fn out_of_locks(outcomes: &[Ended]) -> usize
    ensures { result ≡ ends is_out_of_locks outcomes.now }
{
    outcomes
        .iter()
        .filter(|ended| matches!(ended.outcome, Outcome::OutOfLocks { .. }))
        .count()
}
