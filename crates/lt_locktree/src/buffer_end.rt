//! An event that ends a buffer.
ghost use Rattle.std.specs.Prelude.{◌≡◌, ◌<◌, ◌≤◌, ◌+◌, ◌++◌, ◌∷◌, ℕ, true, IfOk, IfErr, List, length, ◌+ℤ◌, pos};
ghost use Rattle.lt_rows.specs.Handles.{knows, IsPassOf, IsSamePass};
ghost use Rattle.lt_rows.specs.declared.image.RowImage.{RowImage as Image};
ghost use Rattle.lt_rows.specs.declared.view.View.{View};
ghost use Rattle.lt_tree.specs.Puttings.{Backs};
ghost use Rattle.lt_tree.specs.States.{HoldsNone, KeepsRows, OnlyRows, IsRefused};
ghost use Rattle.lt_chain.specs.Chains.{HoldsChain};
ghost use Rattle.lt_locktree.specs.EndedBuffers.{LaysPairs, spare_rows};
ghost use Rattle.lt_locktree.specs.Ends.{EndsAs};
ghost use Rattle.lt_locktree.specs.Makes.{Makes};

use crate::asking::Asking;
use crate::buffer_plan::plan_end;
use crate::buffer_rows::{Spare, put_ends, take_ends};
use lt_chain::put_chain;
use lt_rows::{RowImage, RowPass, RowTable};
use lt_seq::{Event, Fault, Pair};
use lt_tree::write_all;
use std::alloc::Global;

// The change of the used rows by which so many become as many as there are pairs.
fn change_of(rows: usize, pairs: usize) -> i64
    requires { (rows < 9223372036854775808) × (pairs < 9223372036854775808) }
    ensures { result +ℤ pos rows ≡ pos pairs }
{
    pairs as i64 - rows as i64
}

// Commits a plan that lays the pairs out, stores its images, and gives all rows back.
fn commit_end(
    table: &RowTable,
    pass: &mut RowPass,
    tree: u32,
    chain: Vec<u32>,
    spare: &Spare,
    pairs: &[Pair],
    _score: u64,
    plan: &[RowImage],
    event: &Event,
) -> u64
    requires of { IsPassOf table.now pass.old }
    requires fresh { (0 < pass.old.rights) × ((knows pass.old).fresh ≡ true) }
    requires tree { tree < table.now.plan.trees }
    requires backs { Backs (knows pass.old) (spare_rows spare.now ++ tree ∷ chain.items) }
    requires lays { LaysPairs (knows pass.old) plan.now tree _score chain.items pairs.now }
    requires licensed { length chain.items < length pairs.now → (knows pass.old).licensed ≡ true }
    requires ends { (owner : ℕ) × (count : ℕ)
        × EndsAs (knows pass.old) tree owner count chain.items _score pairs.now event.now }
    ensures of { IsPassOf table.now pass.new × IsSamePass pass.old pass.new }
    ensures none { HoldsNone (knows pass.new) }
    ensures made { Makes (knows pass.old) (knows pass.new) plan.now event.now result }
{
    let change = change_of(chain.len(), pairs.len());
    let place = table.commit(pass, plan, event, change);
    write_all(table, pass, plan);
    put_ends(table, pass, tree, chain, spare);
    place
}

/// Makes an event that ends a buffer, of which all rows are held: the pairs after it are laid out as a tree with this score. Rows that
/// are over go to the pool, and one that is missing comes from there. The answer is the event's place. The pass holds no row afterwards.
///
/// # Errors
/// `Busy` only where the pool's anchor or its first row was met held by another pass, which never comes to a pass with all the rights;
/// or want of memory. There is no event then.
pub(crate) fn end_buffer(
    alloc: Global,
    table: &RowTable,
    pass: &mut RowPass,
    asking: &Asking,
    chain: Vec<u32>,
    pairs: &[Pair],
    score: u64,
    event: &Event,
    spins: u32,
) -> Result<u64, Fault>
    requires of { IsPassOf table.now pass.old }
    requires fresh { (0 < pass.old.rights) × ((knows pass.old).fresh ≡ true) }
    requires tree { asking.now.tree < table.now.plan.trees }
    requires chain { HoldsChain (knows pass.old) asking.now.tree chain.items }
    requires room { length pairs.now ≤ length chain.items + 1 }
    requires licensed { length chain.items < length pairs.now → (knows pass.old).licensed ≡ true }
    requires ends { (owner : ℕ) × (count : ℕ)
        × EndsAs (knows pass.old) asking.now.tree owner count chain.items score pairs.now event.now }
    ensures of { IsPassOf table.now pass.new × IsSamePass pass.old pass.new }
    ensures none { HoldsNone (knows pass.new) }
    ensures made { IfOk result (λ place. (u : View) × (plan : List Image) × OnlyRows (knows pass.old) u
        × Makes u (knows pass.new) plan event.now place) }
    ensures kept { IfOk result (λ place. (u : View) × (plan : List Image) × OnlyRows (knows pass.old) u × KeepsRows (knows pass.old) u
        × Makes u (knows pass.new) plan event.now place) }
    ensures only { IfErr result (λ _. OnlyRows (knows pass.old) (knows pass.new)) }
    ensures refused { IfErr result (IsRefused (knows pass.old) (knows pass.new)) }
{
    let ends = match take_ends(table, pass, asking.tree, &chain, pairs.len(), spins) {
        Ok(ends) => ends,
        Err(fault) => {
            put_chain(table, pass, asking.tree, chain);
            return Err(fault);
        }
    };
    let spare = &ends.spare;
    match plan_end(alloc, &ends, asking, score, &chain, pairs) {
        Ok(plan) => Ok(commit_end(
            table,
            pass,
            asking.tree,
            chain,
            spare,
            pairs,
            score,
            &plan,
            event,
        )),
        Err(_) => {
            put_ends(table, pass, asking.tree, chain, spare);
            Err(Fault::OutOfMemory)
        }
    }
}
