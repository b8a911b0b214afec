//! Traces made of a seed.
ghost use Rattle.std.specs.Prelude.{◌≡◌, ◌+◌, ◌<◌, ◌≤◌, ◌++◌, ◌^◌, OnOk, IfOk};
ghost use Rattle.lt_ranges.specs.declared.key.Key.TheVariants as Key;
ghost use Rattle.lt_trace.specs.Grammar.{IsTrace};
ghost use Rattle.lt_trace.specs.Generator.{next_state, drawn, padded, numbered, drawn_deed, drawn_lines, ending_lines, generated};

use crate::header::Header;
use crate::line::{Line, LineDeed};
use crate::trace::Trace;
use lt_ranges::{Key, KeyRange};
use std::alloc::{AllocError, Global};

/// The most lines that are drawn: behind them each transaction ends.
pub const MOST_DRAWN_LINES: u32 = 64_512;

/// The keys are the numbers below this one.
const KEYS: u32 = 10_000;

/// The state that follows.
fn next(state: u64) -> u64
    ensures { result ≡ next_state state }
{
    state
        .wrapping_mul(6_364_136_223_846_793_005)
        .wrapping_add(1_442_695_040_888_963_407)
}

/// A digit as a byte.
fn digit(value: u32) -> u8
    requires { value < 10 }
    ensures { result ≡ 48 + value }
{
    b'0' + value as u8
}

/// The key of a number: its five decimal digits, with leading zeros.
fn key_of(number: u32) -> Key
    requires { number < 10000 }
    ensures { result ≡ Key.Bytes (padded 5 number) }
{
    let thousands = number % 10_000;
    let hundreds = thousands % 1_000;
    let tens = hundreds % 100;
    let digits = [
        digit(number / 10_000),
        digit(thousands / 1_000),
        digit(hundreds / 100),
        digit(tens / 10),
        digit(tens % 10),
    ];
    match Key::new(&digits) {
        Ok(key) => key,
        Err(_) => unreachable!(),
    }
}

/// From the key of one number to that of another.
fn range_of(left: u32, right: u32) -> KeyRange
    requires ordered { left ≤ right }
    requires below { right < 10000 }
    ensures { result ≡ numbered left right }
{
    match KeyRange::new(key_of(left), key_of(right)) {
        Ok(range) => range,
        Err(_) => unreachable!(),
    }
}

/// What a line asks for, by the number that was drawn for it.
fn deed_of(drawn: u64) -> LineDeed
    ensures { result ≡ drawn_deed drawn }
{
    let tree = (drawn / 8 % 2) as u32;
    let key = (drawn / 16 % u64::from(KEYS)) as u32;
    let kind = drawn % 8;
    if kind < 5 {
        let range = range_of(key, key);
        LineDeed::Lock { tree, range }
    } else if kind < 7 {
        let range = range_of(key, (key + 9).min(KEYS - 1));
        LineDeed::Lock { tree, range }
    } else {
        let range = range_of(key, key);
        LineDeed::Try { tree, range }
    }
}

/// Puts the drawn lines behind the others.
fn push_drawn(out: &mut Vec<Line>, seed: u64, txns: u32, lines: u32) -> Result<(), AllocError>
    requires turns { 0 < txns }
    requires few { lines ≤ 64512 }
    ensures { OnOk result (out.new.items ≡ out.old.items ++ drawn_lines seed txns lines) }
{
    let mut state = seed;
    for index in 0..lines {
        state = next(state);
        out.push(Line {
            txn: 1 + u64::from(index % txns),
            number: 5 + index,
            deed: deed_of(state >> 33),
        })?;
    }
    Ok(())
}

/// Puts behind so many lines one for each transaction, by which it ends.
fn push_ending(out: &mut Vec<Line>, txns: u32, lines: u32) -> Result<(), AllocError>
    requires few_txns { txns ≤ 1024 }
    requires few_lines { lines ≤ 64512 }
    ensures { OnOk result (out.new.items ≡ out.old.items ++ ending_lines txns lines) }
{
    for index in 0..txns {
        out.push(Line {
            txn: 1 + u64::from(index),
            number: 5 + lines + index,
            deed: LineDeed::End,
        })?;
    }
    Ok(())
}

/// Makes the trace of a seed: so many lines by so many transactions in turn, and then the end of each transaction.
///
/// The same seed and numbers make the same trace.
pub fn make(alloc: Global, seed: u64, txns: u32, lines: u32) -> Result<Trace, AllocError>
    requires some_txns { 1 ≤ txns }
    requires few_txns { txns ≤ 1024 }
    requires some_lines { 1 ≤ lines }
    requires few_lines { lines ≤ 64512 }
    ensures made { IfOk result (λ trace. trace ≡ generated seed txns lines) }
    ensures trace { IfOk result IsTrace }
{
    let mut made = Vec::new(alloc);
    push_drawn(&mut made, seed, txns, lines)?;
    push_ending(&mut made, txns, lines)?;
    let header = Header {
        version: 1,
        trees: 2,
        limit: 4_096,
        buffer: 512,
    };
    Ok(Trace::new(header, made))
}
