//! The transcript: the text of a run.
ghost use Rattle.std.specs.Prelude.{◌≡◌, ◌++◌, OnOk, IfOk};
ghost use Rattle.std.specs.List.{flat_map};
ghost use Rattle.lt_ranges.specs.KeyText.{spaced};
ghost use Rattle.lt_history.specs.Text.{held_by, reply_text, holders_text, deed_text, event_line, walk_text};
ghost use Rattle.lt_history.specs.Text.{out_of_locks_text, outcome_text, ended_line, end_line, text};

use crate::outcome::{Ended, Outcome};
use itoa::Buffer;
use lt_ranges::{push_range, push_spaced};
use lt_requests::Edge;
use lt_seq::{Deed, Receipt, Reply};
use std::alloc::{AllocError, Global};

/// The transcript: the events by place, one line each, then one line for each transaction, then the number of
/// events and the used rows after them.
pub fn print(
    alloc: Global,
    receipts: &[Receipt],
    outcomes: &[Ended],
    places: u64,
    used: u64,
) -> Result<Vec<u8>, AllocError>
    ensures { IfOk result (λ out. out.items ≡ text receipts.now outcomes.now places used) }
{
    let mut out = Vec::new(alloc);
    push_events(&mut out, receipts)?;
    push_outcomes(&mut out, outcomes)?;
    push_end(&mut out, places, used)?;
    Ok(out)
}

/// Writes the last line.
fn push_end(out: &mut Vec<u8>, count: u64, used: u64) -> Result<(), AllocError>
    ensures { OnOk result (out.new.items ≡ out.old.items ++ end_line count used) }
{
    out.extend_from_slice(b"end")?;
    push_spaced(out, count)?;
    push_spaced(out, used)?;
    out.extend_from_slice(b"\n")?;
    Ok(())
}

/// Writes numbers, each behind a space.
fn push_numbers(out: &mut Vec<u8>, numbers: &[u64]) -> Result<(), AllocError>
    ensures { OnOk result (out.new.items ≡ out.old.items ++ flat_map spaced numbers.now) }
{
    for number in numbers {
        push_spaced(out, *number)?;
    }
    Ok(())
}

/// Writes the owners of a reply.
fn push_held_by(out: &mut Vec<u8>, owners: &[u64]) -> Result<(), AllocError>
    ensures { OnOk result (out.new.items ≡ out.old.items ++ held_by owners.now) }
{
    out.extend_from_slice(b" held by")?;
    push_numbers(out, owners)
}

/// Writes the owners that a question found.
fn push_holders(out: &mut Vec<u8>, owners: &[u64]) -> Result<(), AllocError>
    ensures { OnOk result (out.new.items ≡ out.old.items ++ holders_text owners.now) }
{
    if owners.is_empty() {
        out.extend_from_slice(b" held by none")?;
        return Ok(());
    }
    push_held_by(out, owners)
}

/// Writes a reply.
fn push_reply(out: &mut Vec<u8>, reply: &Reply) -> Result<(), AllocError>
    ensures { OnOk result (out.new.items ≡ out.old.items ++ reply_text reply.now) }
{
    match reply {
        Reply::Granted => out.extend_from_slice(b" granted")?,
        Reply::Buffered => out.extend_from_slice(b" buffered")?,
        Reply::HeldBy(owners) => push_held_by(out, owners.as_slice())?,
    }
    Ok(())
}

/// Writes what an event did.
fn push_deed(out: &mut Vec<u8>, deed: &Deed) -> Result<(), AllocError>
    ensures { OnOk result (out.new.items ≡ out.old.items ++ deed_text deed.now) }
{
    match deed {
        Deed::Ask { tree, range, reply } => {
            out.extend_from_slice(b" ask")?;
            push_spaced(out, u64::from(*tree))?;
            push_range(out, range)?;
            push_reply(out, reply)?;
        }
        Deed::Free {
            tree,
            range,
            count,
            ..
        } => {
            out.extend_from_slice(b" free")?;
            push_spaced(out, u64::from(*tree))?;
            push_range(out, range)?;
            push_spaced(out, *count)?;
        }
        Deed::Who {
            tree,
            range,
            as_txn,
            owners,
        } => {
            out.extend_from_slice(b" who")?;
            push_spaced(out, u64::from(*tree))?;
            push_range(out, range)?;
            push_spaced(out, *as_txn)?;
            push_holders(out, owners.as_slice())?;
        }
        Deed::Join {
            tree,
            before,
            after,
        } => {
            out.extend_from_slice(b" join")?;
            push_spaced(out, u64::from(*tree))?;
            push_spaced(out, *before)?;
            push_spaced(out, *after)?;
        }
    }
    Ok(())
}

/// Writes the line of an event.
fn push_event(out: &mut Vec<u8>, receipt: &Receipt) -> Result<(), AllocError>
    ensures { OnOk result (out.new.items ≡ out.old.items ++ event_line receipt.now) }
{
    let mut buffer = Buffer::new();
    out.extend_from_slice(buffer.format(receipt.place).as_bytes())?;
    push_spaced(out, receipt.event.txn)?;
    push_deed(out, &receipt.event.deed)?;
    out.extend_from_slice(b"\n")?;
    Ok(())
}

/// Writes the lines of the events.
fn push_events(out: &mut Vec<u8>, receipts: &[Receipt]) -> Result<(), AllocError>
    ensures { OnOk result (out.new.items ≡ out.old.items ++ flat_map event_line receipts.now) }
{
    for receipt in receipts {
        push_event(out, receipt)?;
    }
    Ok(())
}

/// Writes the transactions of a closed walk behind the first.
fn push_walk(out: &mut Vec<u8>, edges: &[Edge]) -> Result<(), AllocError>
    ensures { OnOk result (out.new.items ≡ out.old.items ++ walk_text edges.now) }
{
    for edge in edges {
        push_spaced(out, edge.holder)?;
    }
    Ok(())
}

/// Writes the look that showed no room.
fn push_out_of_locks(out: &mut Vec<u8>, place: u64, used: u64) -> Result<(), AllocError>
    ensures { OnOk result (out.new.items ≡ out.old.items ++ out_of_locks_text place used) }
{
    out.extend_from_slice(b" outoflocks")?;
    push_spaced(out, place)?;
    push_spaced(out, used)
}

/// Writes how a transaction ended.
fn push_outcome(out: &mut Vec<u8>, txn: u64, outcome: &Outcome) -> Result<(), AllocError>
    ensures { OnOk result (out.new.items ≡ out.old.items ++ outcome_text txn outcome.now) }
{
    match outcome {
        Outcome::Done => out.extend_from_slice(b" done")?,
        Outcome::Aborted => out.extend_from_slice(b" aborted")?,
        Outcome::Deadlock(walk) => {
            out.extend_from_slice(b" deadlock")?;
            push_spaced(out, txn)?;
            push_walk(out, walk.as_slice())?;
        }
        Outcome::OutOfLocks { place, used } => push_out_of_locks(out, *place, *used)?,
    }
    Ok(())
}

/// Writes the line of a transaction.
fn push_ended(out: &mut Vec<u8>, ended: &Ended) -> Result<(), AllocError>
    ensures { OnOk result (out.new.items ≡ out.old.items ++ ended_line ended.now) }
{
    out.extend_from_slice(b"txn")?;
    push_spaced(out, ended.txn)?;
    push_outcome(out, ended.txn, &ended.outcome)?;
    out.extend_from_slice(b"\n")?;
    Ok(())
}

/// Writes the lines of the transactions.
fn push_outcomes(out: &mut Vec<u8>, outcomes: &[Ended]) -> Result<(), AllocError>
    ensures { OnOk result (out.new.items ≡ out.old.items ++ flat_map ended_line outcomes.now) }
{
    for ended in outcomes {
        push_ended(out, ended)?;
    }
    Ok(())
}
