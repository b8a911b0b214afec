//! Frees of ranges.
ghost use Rattle.std.specs.Prelude.{◌≡◌, ◌<◌, ℕ, Bool, true, IfOk, IfErr};
ghost use Rattle.lt_ranges.specs.Interval.{Interval};
ghost use Rattle.lt_seq.specs.declared.event.Deed.TheVariants.{Free};
ghost use Rattle.lt_forest.specs.Forest.{IsTree};
ghost use Rattle.lt_rows.specs.Nodes.{mode_of};
ghost use Rattle.lt_rows.specs.Handles.{knows, IsPassOf, IsSamePass};
ghost use Rattle.lt_tree.specs.States.{HoldsNone, SeesOn, IsRefused};
ghost use Rattle.lt_locktree.specs.Deeds.{ReachesDeed};
ghost use Rattle.lt_locktree.specs.Makes.{IsOf};

use crate::asking::Asking;
use crate::buffer_free::free_of_buffer;
use crate::freeing::free_in_tree;
use crate::locktree::{Locktree, SPINS};
use crate::tree_pass::TreePass;
use core::mem::replace_with;
use lt_ranges::KeyRange;
use lt_rows::{RowPass, RowTable};
use lt_seq::{Deed, Event, Fault};
use lt_tree::{Prepared, try_prepare};
use std::alloc::Global;

/// How many ranges the event of a free gave back.
fn freed_by(event: &Event) -> u64
    requires free { (tree : ℕ) × (range : Interval) × (first : Bool) × (count : ℕ) × (event.now.deed ≡ Free tree range first count) }
    ensures { (tree : ℕ) (range : Interval) (first : Bool) (count : ℕ) → event.now.deed ≡ Free tree range first count
        → result ≡ count }
{
    match &event.deed {
        Deed::Free { count, .. } => *count,
        Deed::Ask { .. } | Deed::Who { .. } | Deed::Join { .. } => unreachable!(),
    }
}

/// Frees the range in Tree mode. For a release's first free the anchor stays held, since the tree's score rises.
fn free_tree<'a>(
    alloc: Global,
    prepared: Prepared<'a>,
    asking: &Asking,
    first: bool,
) -> (RowPass, Result<(u64, u64), Fault>)
    requires fresh { (knows prepared.pass).fresh ≡ true }
    requires tree_mode { IsTree (mode_of prepared.image.words) }
    requires asking { IsOf prepared.pass prepared.tree asking.now.range asking.now }
    ensures of { IsPassOf prepared.entry.table.now result.0 × IsSamePass prepared.entry.pass result.0 × HoldsNone (knows result.0) }
    ensures made { IfOk result.1 (λ f. ReachesDeed (knows prepared.entry.pass) (knows result.0) asking.now
        (Free asking.now.tree asking.now.range first f.1) f.0) }
    ensures only { IfErr result.1 (λ _. SeesOn (knows prepared.entry.pass) (knows result.0)) }
    ensures refused { IfErr result.1 (IsRefused (knows prepared.entry.pass) (knows result.0)) }
{
    let searched = if first {
        prepared.keep_anchor(alloc, &asking.range)
    } else {
        prepared.acquire(alloc, &asking.range)
    };
    let locked = match searched {
        Ok(locked) => locked,
        Err((pass, fault)) => return (pass, Err(fault)),
    };
    match free_in_tree(alloc, locked, asking, first) {
        Ok((pass, receipt)) => (pass, Ok((receipt.place, freed_by(&receipt.event)))),
        Err((pass, fault)) => (pass, Err(fault)),
    }
}

/// Frees with the pass, which holds no row before nor afterwards.
fn serve_free(
    pass: RowPass,
    call: (Global, &RowTable, &Asking, bool),
) -> (RowPass, Result<(u64, u64), Fault>)
    requires of { IsPassOf call.1.now pass }
    requires fresh { (0 < pass.rights) × ((knows pass).fresh ≡ true) }
    requires none { HoldsNone (knows pass) }
    requires asking { IsOf pass call.2.now.tree call.2.now.range call.2.now × (call.2.now.tree < call.1.now.plan.trees) }
    ensures of { IsPassOf call.entry.1.now result.0 × IsSamePass pass result.0 × HoldsNone (knows result.0) }
    ensures made { IfOk result.1 (λ f. ReachesDeed (knows pass) (knows result.0) call.entry.2.now
        (Free call.entry.2.now.tree call.entry.2.now.range call.entry.3 f.1) f.0) }
    ensures only { IfErr result.1 (λ _. SeesOn (knows pass) (knows result.0)) }
    ensures refused { IfErr result.1 (IsRefused (knows pass) (knows result.0)) }
{
    let (alloc, table, asking, first) = call;
    let prepared = match try_prepare(table, pass, asking.tree, SPINS) {
        Ok(prepared) => prepared,
        Err((pass, fault)) => return (pass, Err(fault)),
    };
    let anchor = prepared.anchor();
    if anchor.buffer_txn == 0 {
        return free_tree(alloc, prepared, asking, first);
    }
    let mut pass = prepared.into_pass();
    let freed = free_of_buffer(alloc, table, &mut pass, asking, first, SPINS);
    (pass, freed)
}

impl Locktree {
    ghost use Rattle.lt_locktree.specs.Calls.{sees, IsOfTable, StaysOf, Makes, Leaves};

    /// Frees the transaction's ranges that overlap the range. `first` tells that this is the first free of a release in this tree.
    /// The answer is the event's place, and how many ranges went.
    ///
    /// # Errors
    /// As those of `ask`.
    pub fn free(
        &self,
        pass: &mut TreePass,
        txn: u64,
        tree: u32,
        range: &KeyRange,
        first: bool,
    ) -> Result<(u64, u64), Fault>
        requires of { IsOfTable self.now pass.old }
        requires right { 0 < (sees pass.old).rights }
        requires room { (sees pass.old).fresh ≡ true }
        requires tree { tree < self.now.rows.plan.trees }
        ensures of { StaysOf self.now pass.old pass.new }
        ensures made { IfOk result (λ f. Makes (sees pass.old) (sees pass.new) txn (Free tree range.now first f.1) f.0) }
        ensures left { IfErr result (Leaves (sees pass.old) (sees pass.new)) }
    {
        let asking = Asking {
            pass: pass.number(),
            txn,
            tree,
            range: *range,
        };
        replace_with(
            &mut pass.pass,
            (self.alloc, &self.rows, &asking, first),
            serve_free,
        )
    }
}
