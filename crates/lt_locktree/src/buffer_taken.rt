//! A buffer that a deed takes whole.
ghost use Rattle.std.specs.Prelude.{◌≡◌, ◌<◌, IfOk, IfErr};
ghost use Rattle.lt_rows.specs.Handles.{knows, IsPassOf, IsSamePass};
ghost use Rattle.lt_tree.specs.States.{HoldsNone, OnlyRows, IsRefused};
ghost use Rattle.lt_chain.specs.Buffers.{HoldsAnchor};
ghost use Rattle.lt_chain.specs.Chains.{ShowsBuffer};
ghost use Rattle.lt_locktree.specs.TakenBuffers.{ShowsBufferOf, HasTaken};

use crate::pairs_of::pairs_of;
use lt_chain::{ChainRead, put_chain, to_pairs};
use lt_rows::{RowPass, RowTable};
use lt_seq::{Fault, Pair};
use std::alloc::Global;

/// A buffer's rows, all of which are held with the tree's anchor, and its pairs.
#[derive(Drop)]
pub(crate) struct HeldBuffer {
    /// From the chain's first to its last.
    pub rows: Vec<u32>,
    /// In key order.
    pub pairs: Vec<Pair>,
}

/// The transaction of a buffer, of which the anchor is held.
pub(crate) fn owner_of(table: &RowTable, pass: &mut RowPass, tree: u32) -> u64
    requires of { IsPassOf table.now pass.old }
    requires anchor { HoldsAnchor (knows pass.old) tree }
    requires buffer { ShowsBuffer (knows pass.old) tree }
    ensures of { IsPassOf table.now pass.new × IsSamePass pass.old pass.new }
    ensures same { knows pass.new ≡ knows pass.old }
    ensures owner { ShowsBufferOf (knows pass.old) tree result }
{
    table.load_row(pass, tree).owner()
}

/// Takes all rows of a buffer, of which the pass holds the anchor, and reads its pairs.
///
/// # Errors
/// `Busy` only where a row was met that another pass holds, which never comes to a pass with all the rights; or want of memory.
/// The pass holds no row then.
pub(crate) fn take_buffer(
    alloc: Global,
    table: &RowTable,
    pass: &mut RowPass,
    tree: u32,
    spins: u32,
) -> Result<HeldBuffer, Fault>
    requires of { IsPassOf table.now pass.old }
    requires right { 0 < pass.old.rights }
    requires tree { tree < table.now.plan.trees }
    requires anchor { HoldsAnchor (knows pass.old) tree }
    requires buffer { ShowsBuffer (knows pass.old) tree }
    ensures of { IsPassOf table.now pass.new × IsSamePass pass.old pass.new }
    ensures only { OnlyRows (knows pass.old) (knows pass.new) }
    ensures taken { IfOk result (λ b. HasTaken (knows pass.old) (knows pass.new) tree b.rows.items b.pairs.items) }
    ensures none { IfErr result (λ _. HoldsNone (knows pass.new)) }
    ensures refused { IfErr result (IsRefused (knows pass.old) (knows pass.new)) }
{
    let ChainRead { rows, pairs: held } = to_pairs(alloc, table, pass, tree, spins)?;
    match pairs_of(alloc, &held) {
        Ok(pairs) => Ok(HeldBuffer { rows, pairs }),
        Err(_) => {
            put_chain(table, pass, tree, rows);
            Err(Fault::OutOfMemory)
        }
    }
}
