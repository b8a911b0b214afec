//! A join's event, and the ranges that it leaves, as its note tells them.
ghost use Rattle.std.specs.Prelude.{◌≡◌, map, IfOk};
ghost use Rattle.lt_seq.specs.declared.event.Deed.TheVariants.{Join};
ghost use Rattle.lt_seq.specs.Table.{held_in};
ghost use Rattle.lt_forest.specs.Parts.{row_pair};
ghost use Rattle.lt_locktree.specs.Deeds.{asked_event};

use crate::asking::Asking;
use lt_forest::PartRow;
use lt_seq::{Deed, Event, Held, HeldList, Pair, add_held};
use std::alloc::{AllocError, Global};

/// The event of a join by which so many ranges become so many.
pub(crate) fn join_event(asking: &Asking, before: u64, after: u64) -> Event
    ensures { result ≡ asked_event asking.now (Join asking.now.tree before after) }
{
    let deed = Deed::Join {
        tree: asking.tree,
        before,
        after,
    };
    Event {
        pass: asking.pass,
        txn: asking.txn,
        deed,
    }
}

/// The rows' ranges with their owners, as those of a tree. The one error is want of memory.
pub fn held_rows(alloc: Global, tree: u32, rows: &[PartRow]) -> Result<HeldList, AllocError>
    ensures { IfOk result (λ held. held ≡ held_in tree (map row_pair rows.now)) }
{
    let mut held = Vec::new(alloc);
    for row in rows {
        held.push(Held {
            tree,
            owner: row.owner,
            range: row.range,
        })?;
    }
    Ok(HeldList::of(held))
}

/// The ranges with their owners, as those of a tree. The one error is want of memory.
pub(crate) fn held_pairs(alloc: Global, tree: u32, pairs: &[Pair]) -> Result<HeldList, AllocError>
    ensures { IfOk result (λ held. held ≡ held_in tree pairs.now) }
{
    let mut held = Vec::new(alloc);
    add_held(&mut held, tree, pairs)?;
    Ok(HeldList::of(held))
}
