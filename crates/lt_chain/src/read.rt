//! A buffer's rows and pairs.
ghost use Rattle.std.specs.Prelude.{◌≡◌, ◌<◌, ◌∷◌, IfOk, IfErr};
ghost use Rattle.lt_rows.specs.Handles.{knows, IsPassOf, IsSamePass};
ghost use Rattle.lt_tree.specs.States.{HoldsNone, OnlyHeld, OnlyRows, KeepsRows, IsRefused};
ghost use Rattle.lt_tree.specs.Puttings.{Backs};
ghost use Rattle.lt_chain.specs.Buffers.{HoldsAnchor};
ghost use Rattle.lt_chain.specs.Chains.{ShowsBuffer, HoldsChain, ReadsPairs};

use crate::pairs::read_pairs;
use crate::walk::take_chain;
use lt_rows::{RowPass, RowTable};
use lt_seq::{Fault, Held};
use lt_tree::put_all;
use std::alloc::Global;

/// What a buffer is made of.
#[derive(Drop)]
pub struct ChainRead {
    /// The chain's rows, from its first to its last: the last range that was asked for stands in the first.
    pub rows: Vec<u32>,
    /// The buffer's pairs, in key order.
    pub pairs: Vec<Held>,
}

/// Gives the chain's rows and the anchor back.
pub fn put_chain(table: &RowTable, pass: &mut RowPass, tree: u32, rows: Vec<u32>)
    requires of { IsPassOf table.now pass.old }
    requires backs { Backs (knows pass.old) (tree ∷ rows.items) }
    ensures of { IsPassOf table.now pass.new × IsSamePass pass.old pass.new }
    ensures only { OnlyHeld (knows pass.old) (knows pass.new) }
    ensures none { HoldsNone (knows pass.new) }
{
    put_all(table, pass, rows);
    table.put(pass, tree);
}

/// Takes all rows of a buffer's chain, and reads its pairs. The pass holds the anchor and these rows afterwards.
/// With n rows it takes n log n compares, and memory for the rows, their ranges and the pairs.
///
/// # Errors
/// `Busy` only where a row was met that another pass holds, which never comes to a pass with all the rights; or want of memory.
/// The pass holds no row then.
pub fn to_pairs(
    alloc: Global,
    table: &RowTable,
    pass: &mut RowPass,
    tree: u32,
    spins: u32,
) -> Result<ChainRead, Fault>
    requires of { IsPassOf table.now pass.old }
    requires right { 0 < pass.old.rights }
    requires tree { tree < table.now.plan.trees }
    requires anchor { HoldsAnchor (knows pass.old) tree }
    requires buffer { ShowsBuffer (knows pass.old) tree }
    ensures of { IsPassOf table.now pass.new × IsSamePass pass.old pass.new }
    ensures only { OnlyRows (knows pass.old) (knows pass.new) }
    ensures kept { IfOk result (λ _. KeepsRows (knows pass.old) (knows pass.new)) }
    ensures chain { IfOk result (λ read. HoldsChain (knows pass.new) tree read.rows.items) }
    ensures pairs { IfOk result (λ read. ReadsPairs (knows pass.new) tree read.rows.items read.pairs.items) }
    ensures none { IfErr result (λ _. HoldsNone (knows pass.new)) }
    ensures refused { IfErr result (λ fault. IsRefused (knows pass.old) (knows pass.new) fault) }
{
    let mut rows = Vec::new(alloc);
    match take_chain(table, pass, tree, &mut rows, spins) {
        Ok(()) => {}
        Err(fault) => {
            put_chain(table, pass, tree, rows);
            return Err(fault);
        }
    }
    match read_pairs(alloc, table, pass, tree, &rows) {
        Ok(pairs) => Ok(ChainRead { rows, pairs }),
        Err(_) => {
            put_chain(table, pass, tree, rows);
            Err(Fault::OutOfMemory)
        }
    }
}
