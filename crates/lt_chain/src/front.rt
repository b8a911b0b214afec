//! The pool's first row, taken.
ghost use Rattle.std.specs.Prelude.{◌≡◌, ◌<◌, true, IfOk, IfErr};
ghost use Rattle.lt_rows.specs.Handles.{knows, IsPassOf, IsSamePass};
ghost use Rattle.lt_tree.specs.States.{HoldsNone, OnlyRows, KeepsRows};
ghost use Rattle.lt_chain.specs.Buffers.{HoldsAnchor, IsMet};
ghost use Rattle.lt_chain.specs.Images.{HasImages, HoldsThree, IsFirst};

use crate::images::Images;
use lt_rows::{RowPass, RowTable, Take};
use lt_seq::Fault;
use lt_tree::try_take;

/// Takes the pool's anchor and its first row, and loads them with the tree's anchor. After a refusal no row is held.
pub(crate) fn take_front(
    table: &RowTable,
    pass: &mut RowPass,
    tree: u32,
    spins: u32,
) -> Result<Images, Fault>
    requires of { IsPassOf table.now pass.old }
    requires right { 0 < pass.old.rights }
    requires tree { tree < table.now.plan.trees }
    requires anchor { HoldsAnchor (knows pass.old) tree }
    requires licensed { (knows pass.old).licensed ≡ true }
    ensures of { IsPassOf table.now pass.new × IsSamePass pass.old pass.new }
    ensures only { OnlyRows (knows pass.old) (knows pass.new) }
    ensures kept { IfOk result (λ _. KeepsRows (knows pass.old) (knows pass.new)) }
    ensures held { IfOk result (λ i. HasImages table.now.plan (knows pass.new) tree i × HoldsThree (knows pass.new) i) }
    ensures first { IfOk result IsFirst }
    ensures none { IfErr result (λ _. HoldsNone (knows pass.new)) }
    ensures met { IfErr result (λ fault. IsMet (knows pass.old) (knows pass.new) fault) }
{
    let pool_row = table.plan().trees;
    match try_take(table, pass, pool_row, spins) {
        Take::Taken => {}
        Take::HeldBy(holder) => {
            table.put(pass, tree);
            return Err(Fault::Busy {
                row: pool_row,
                holder,
            });
        }
    }
    let pool = table.load_row(pass, pool_row);
    let first = (pool.left() - 1) as u32;
    match try_take(table, pass, first, spins) {
        Take::Taken => {}
        Take::HeldBy(holder) => {
            table.put(pass, pool_row);
            table.put(pass, tree);
            return Err(Fault::Busy { row: first, holder });
        }
    }
    let anchor = table.load_row(pass, tree);
    let row = table.load_row(pass, first);
    Ok(Images { anchor, pool, row })
}
