//! A join of a tree with a buffer.
ghost use Rattle.std.specs.Prelude.{◌≡◌, ◌<◌, true, IfOk, IfErr};
ghost use Rattle.lt_rows.specs.Handles.{knows, IsPassOf, IsSamePass};
ghost use Rattle.lt_tree.specs.States.{HoldsNone, OnlyRows, IsRefused};
ghost use Rattle.lt_chain.specs.Buffers.{HoldsAnchor};
ghost use Rattle.lt_chain.specs.Chains.{ShowsBuffer};
ghost use Rattle.lt_locktree.specs.Deeds.{MakesJoin};
ghost use Rattle.lt_locktree.specs.Makes.{IsOf};

use crate::asking::Asking;
use crate::buffer_end::end_buffer;
use crate::buffer_taken::{HeldBuffer, take_buffer};
use crate::noting::{held_pairs, join_event};
use lt_chain::put_chain;
use lt_rows::{RowPass, RowTable};
use lt_seq::{Fault, JoinNote, join_pairs};
use std::alloc::Global;

/// Joins a tree whose ranges stand in a buffer, which ends. The pass holds the tree's anchor before, and no row afterwards.
///
/// # Errors
/// As those of an ask.
pub(crate) fn join_of_buffer(
    alloc: Global,
    table: &RowTable,
    pass: &mut RowPass,
    asking: &Asking,
    spins: u32,
) -> Result<JoinNote, Fault>
    requires of { IsPassOf table.now pass.old }
    requires fresh { (0 < pass.old.rights) × ((knows pass.old).fresh ≡ true) }
    requires asking { IsOf pass.old asking.now.tree asking.now.range asking.now × (asking.now.tree < table.now.plan.trees) }
    requires anchor { HoldsAnchor (knows pass.old) asking.now.tree }
    requires buffer { ShowsBuffer (knows pass.old) asking.now.tree }
    ensures of { IsPassOf table.now pass.new × IsSamePass pass.old pass.new }
    ensures none { HoldsNone (knows pass.new) }
    ensures made { IfOk result (MakesJoin (knows pass.old) (knows pass.new) asking.now) }
    ensures only { IfErr result (λ _. OnlyRows (knows pass.old) (knows pass.new)) }
    ensures refused { IfErr result (IsRefused (knows pass.old) (knows pass.new)) }
{
    let taken = take_buffer(alloc, table, pass, asking.tree, spins)?;
    let HeldBuffer { rows, pairs } = taken;
    let mut pairs = pairs;
    let counts = join_pairs(&mut pairs, table.plan().marks.as_slice());
    let Ok(held) = held_pairs(alloc, asking.tree, &pairs) else {
        put_chain(table, pass, asking.tree, rows);
        return Err(Fault::OutOfMemory);
    };
    let event = join_event(asking, counts.before, counts.after);
    let place = end_buffer(alloc, table, pass, asking, rows, &pairs, 0, &event, spins)?;
    Ok(JoinNote {
        place,
        tree: asking.tree,
        before: counts.before,
        after: counts.after,
        pairs: held,
    })
}
