//! The plain work on one tree's pairs, which stand in the order of their left ends.
ghost use Rattle.std.specs.Prelude.{◌≡◌, ◌≤◌, ◌++◌, ◌==◌, [], not, length, take, filter, fold, OnOk, OnErr, IfOk, vec_len, vec_capacity};
ghost use Rattle.lt_ranges.specs.Interval.{IsInterval, hull};
ghost use Rattle.lt_seq.specs.Window.{IsWindow};
ghost use Rattle.lt_seq.specs.Pairs.{IsLawful, others, freed, count_freed, granted};
ghost use Rattle.lt_seq.specs.Table.{held_in};

use crate::event::{Held, Pair};
use lt_ranges::KeyRange;
use std::alloc::{AllocError, Global};
use std::ops::Range;

/// Where the pairs stand that overlap the range: side by side.
fn window(pairs: &[Pair], range: &KeyRange) -> Range<usize>
    requires { IsLawful pairs.now }
    ensures range { IsInterval range.now }
    ensures window { IsWindow range.now pairs.now result.start result.end }
{
    let left = range.left();
    let right = range.right();
    let start = pairs.partition_point(|pair| !left.is_at_most(&pair.range.right()));
    let end = pairs.partition_point(|pair| pair.range.left().is_at_most(&right));
    start..end
}

/// Moves the pairs of others to the front, in their order, and says how many they are.
fn keep_others(met: &mut [Pair], txn: u64) -> usize
    ensures kept { take result met.new ≡ filter (λ p. not (p.owner == txn)) met.old }
    ensures within { result ≤ length met.new }
{
    let mut kept = 0;
    for i in 0..met.len() {
        let pair = met[i];
        if pair.owner != txn {
            met[kept] = pair;
            kept += 1;
        }
    }
    kept
}

/// Removes the transaction's pairs that overlap the range, and says how many they were.
pub fn free(pairs: &mut Vec<Pair>, txn: u64, range: &KeyRange) -> usize
    requires { IsLawful pairs.old.items }
    ensures count { result ≡ count_freed txn range.now pairs.old.items }
    ensures pairs { pairs.new.items ≡ freed txn range.now pairs.old.items }
    ensures room { vec_capacity pairs.new ≡ vec_capacity pairs.old }
    ensures fewer { vec_len pairs.new ≤ vec_len pairs.old }
    ensures ordered { IsInterval range.now }
{
    let Range { start, end } = window(pairs, range);
    let kept = start + keep_others(&mut pairs[start..end], txn);
    drop(pairs.drain(kept..end));
    end - kept
}

/// The least range that covers the range and those of the pairs.
fn span_of(met: &[Pair], range: &KeyRange) -> KeyRange
    ensures { result ≡ fold (λ r p. hull r p.range) range.now met.now }
{
    met.iter().fold(*range, |span, pair| span.hull(&pair.range))
}

/// Gives the range to the transaction, joined with its ranges that overlap. Where memory is short the pairs stay.
pub fn grant(pairs: &mut Vec<Pair>, txn: u64, range: &KeyRange) -> Result<(), AllocError>
    requires lawful { IsLawful pairs.old.items }
    requires unopposed { others txn range.now pairs.old.items ≡ [] }
    ensures ok { OnOk result (pairs.new.items ≡ granted txn range.now pairs.old.items) }
    ensures err { OnErr result (pairs.new.items ≡ pairs.old.items) }
    ensures ordered { IsInterval range.now }
{
    let Range { start, end } = window(pairs, range);
    let joined = Pair {
        owner: txn,
        range: span_of(&pairs[start..end], range),
    };
    if start == end {
        pairs.insert(start, joined)?;
    } else {
        pairs[start] = joined;
        drop(pairs.drain(start + 1..end));
    }
    Ok(())
}

/// The owners other than the transaction whose ranges overlap, ascending and each once.
pub fn others_of(
    alloc: Global,
    pairs: &[Pair],
    txn: u64,
    range: &KeyRange,
) -> Result<Vec<u64>, AllocError>
    requires { IsLawful pairs.now }
    ensures others { IfOk result (λ v. v.items ≡ others txn range.now pairs.now) }
    ensures ordered { IsInterval range.now }
{
    let mut owners: Vec<u64> = pairs[window(pairs, range)]
        .iter()
        .filter(|pair| pair.owner != txn)
        .map(|pair| pair.owner)
        .collect(alloc)?;
    owners.sort_unstable();
    owners.dedup();
    Ok(owners)
}

/// Puts the pairs of a tree behind those of the trees below it.
pub fn add_held(left: &mut Vec<Held>, tree: u32, pairs: &[Pair]) -> Result<(), AllocError>
    ensures { OnOk result (left.new.items ≡ left.old.items ++ held_in tree pairs.now) }
{
    for pair in pairs {
        left.push(Held {
            tree,
            owner: pair.owner,
            range: pair.range,
        })?;
    }
    Ok(())
}
