//! What is written of a script that was played.
ghost use Rattle.std.specs.Prelude.{◌≡◌, ◌++◌, OnOk, codes};
ghost use Rattle.std.specs.List.{flat_map};
ghost use Rattle.lt_ranges.specs.KeyText.{key_text, spaced};
ghost use Rattle.lt_script.specs.Asked.{asked_text};
ghost use Rattle.lt_script.specs.Text.{row_text, value_text, rows_text, answer_text, answer_line, map_lines, end_line};

use itoa::Buffer;
use lt_ranges::{Key, push_range, push_spaced};
use lt_store::{Answer, Move, Op, StoreRow};
use std::alloc::AllocError;

/// Writes a key.
fn push_key(text: &mut Vec<u8>, key: &Key) -> Result<(), AllocError>
    ensures { OnOk result (text.new.items ≡ text.old.items ++ key_text key.now) }
{
    let characters = key.text();
    text.extend_from_slice(characters.as_slice())
}

/// Writes what was asked for.
fn push_asked(text: &mut Vec<u8>, op: &Op) -> Result<(), AllocError>
    ensures { OnOk result (text.new.items ≡ text.old.items ++ asked_text op.now) }
{
    match op {
        Op::Get { key } => {
            text.extend_from_slice(b" get ")?;
            push_key(text, key)?;
        }
        Op::Put { key, .. } => {
            text.extend_from_slice(b" put ")?;
            push_key(text, key)?;
        }
        Op::Scan { range } => {
            text.extend_from_slice(b" scan")?;
            push_range(text, range)?;
        }
        Op::Commit => text.extend_from_slice(b" commit")?,
        Op::Abort => text.extend_from_slice(b" abort")?,
    }
    Ok(())
}

/// Writes what was found of a key.
fn push_value(text: &mut Vec<u8>, value: Option<u64>) -> Result<(), AllocError>
    ensures { OnOk result (text.new.items ≡ text.old.items ++ value_text value) }
{
    match value {
        Some(value) => push_spaced(text, value),
        None => text.extend_from_slice(b" none"),
    }
}

/// Writes a row of the map, behind a space.
fn push_row(text: &mut Vec<u8>, row: &StoreRow) -> Result<(), AllocError>
    ensures { OnOk result (text.new.items ≡ text.old.items ++ row_text row.now) }
{
    text.extend_from_slice(b" ")?;
    push_key(text, &row.key)?;
    push_spaced(text, row.value)
}

/// Writes rows, one after another.
fn push_each_row(text: &mut Vec<u8>, rows: &[StoreRow]) -> Result<(), AllocError>
    ensures { OnOk result (text.new.items ≡ text.old.items ++ flat_map row_text rows.now) }
{
    for row in rows {
        push_row(text, row)?;
    }
    Ok(())
}

/// Writes what was found of a range.
fn push_rows(text: &mut Vec<u8>, rows: &[StoreRow]) -> Result<(), AllocError>
    ensures { OnOk result (text.new.items ≡ text.old.items ++ rows_text rows.now) }
{
    if rows.is_empty() {
        return text.extend_from_slice(b" none");
    }
    push_each_row(text, rows)
}

/// Writes numbers, each behind a space.
fn push_numbers(text: &mut Vec<u8>, numbers: &[u64]) -> Result<(), AllocError>
    ensures { OnOk result (text.new.items ≡ text.old.items ++ flat_map spaced numbers.now) }
{
    for number in numbers {
        push_spaced(text, *number)?;
    }
    Ok(())
}

/// Writes an answer, behind its transaction.
fn push_what_came(text: &mut Vec<u8>, op: &Op, answer: &Answer) -> Result<(), AllocError>
    ensures { OnOk result (text.new.items ≡ text.old.items ++ answer_text op.now answer.now) }
{
    match answer {
        Answer::Value(value) => {
            push_asked(text, op)?;
            push_value(text, *value)?;
        }
        Answer::Stored => {
            push_asked(text, op)?;
            text.extend_from_slice(b" ok")?;
        }
        Answer::Rows(rows) => {
            push_asked(text, op)?;
            push_rows(text, rows.as_slice())?;
        }
        Answer::Committed | Answer::Aborted => push_asked(text, op)?,
        Answer::Held(owners) => {
            text.extend_from_slice(b" held by")?;
            push_numbers(text, owners.as_slice())?;
        }
        Answer::OutOfLocks { .. } => text.extend_from_slice(b" outoflocks")?,
        Answer::Gone => text.extend_from_slice(b" gone")?,
    }
    Ok(())
}

/// Writes the line of an answer.
pub(crate) fn push_answer(
    text: &mut Vec<u8>,
    order: &Move,
    answer: &Answer,
) -> Result<(), AllocError>
    ensures { OnOk result (text.new.items ≡ text.old.items ++ answer_line order.now answer.now) }
{
    let mut buffer = Buffer::new();
    text.extend_from_slice(buffer.format(order.txn).as_bytes())?;
    push_what_came(text, &order.op, answer)?;
    text.extend_from_slice(b"\n")
}

/// Writes the line of a row of the map.
fn push_map_line(text: &mut Vec<u8>, row: &StoreRow) -> Result<(), AllocError>
    ensures { OnOk result (text.new.items ≡ text.old.items ++ (codes "map" ++ row_text row.now ++ codes "\n")) }
{
    text.extend_from_slice(b"map")?;
    push_row(text, row)?;
    text.extend_from_slice(b"\n")
}

/// Writes the lines of the rows of a map.
pub(crate) fn push_map(text: &mut Vec<u8>, rows: &[StoreRow]) -> Result<(), AllocError>
    ensures { OnOk result (text.new.items ≡ text.old.items ++ map_lines rows.now) }
{
    for row in rows {
        push_map_line(text, row)?;
    }
    Ok(())
}

/// Writes the last line.
pub(crate) fn push_end(text: &mut Vec<u8>, commits: u64) -> Result<(), AllocError>
    ensures { OnOk result (text.new.items ≡ text.old.items ++ end_line commits) }
{
    text.extend_from_slice(b"end")?;
    push_spaced(text, commits)?;
    text.extend_from_slice(b"\n")
}
