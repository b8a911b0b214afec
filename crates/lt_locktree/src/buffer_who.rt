//! A question whose ranges stand in the way, in a tree with a buffer.
ghost use Rattle.std.specs.Prelude.{◌≡◌, ◌≢◌, ◌<◌, ℕ, List, true, IfOk, IfErr};
ghost use Rattle.lt_ranges.specs.Interval.{Interval};
ghost use Rattle.lt_seq.specs.declared.event.Deed.TheVariants.{Who};
ghost use Rattle.lt_seq.specs.Pairs.{IsLawful, others};
ghost use Rattle.lt_rows.specs.Handles.{knows, IsPassOf, IsSamePass};
ghost use Rattle.lt_tree.specs.States.{HoldsNone, OnlyRows, IsRefused};
ghost use Rattle.lt_chain.specs.Buffers.{HoldsAnchor};
ghost use Rattle.lt_chain.specs.Chains.{ShowsBuffer};
ghost use Rattle.lt_locktree.specs.Deeds.{MakesDeed};
ghost use Rattle.lt_locktree.specs.Makes.{IsOf};
ghost use Rattle.lt_locktree.specs.TakenBuffers.{ShowsBufferOf};

use crate::answers::Named;
use crate::asking::Asking;
use crate::buffer_end::end_buffer;
use crate::buffer_taken::{HeldBuffer, owner_of, take_buffer};
use lt_chain::put_chain;
use lt_ranges::KeyRange;
use lt_rows::{RowPass, RowTable};
use lt_seq::{Deed, Event, Fault, Owners, Pair, others_of};
use std::alloc::{AllocError, Global};

/// Whose ranges stand in the way, twice.
#[derive(Drop)]
struct Naming {
    owners: Owners,
    copy: Owners,
}

/// Whose of these ranges overlap the range, but those of one transaction. The only error is want of memory.
fn name_others(
    alloc: Global,
    pairs: &[Pair],
    as_txn: u64,
    range: &KeyRange,
) -> Result<Naming, AllocError>
    requires { IsLawful pairs.now }
    ensures owners { IfOk result (λ n. n.owners ≡ others as_txn range.now pairs.now) }
    ensures copy { IfOk result (λ n. n.copy ≡ n.owners) }
{
    let owners = Owners::of(others_of(alloc, pairs, as_txn, range)?);
    let copy = owners.again()?;
    Ok(Naming { owners, copy })
}

/// The question's event.
fn who_event(asking: &Asking, as_txn: u64, owners: Owners) -> Event
    ensures { result ≡ record {
      pass = asking.now.pass;
      txn = asking.now.txn;
      deed = Who asking.now.tree asking.now.range as_txn owners;
    } }
{
    Event {
        pass: asking.pass,
        txn: asking.txn,
        deed: Deed::Who {
            tree: asking.tree,
            range: asking.range,
            as_txn,
            owners,
        },
    }
}

/// The owners that a question's deed names.
fn owners_in(deed: Deed) -> Owners
    requires { (tree : ℕ) × (range : Interval) × (as_txn : ℕ) × (owners : List ℕ) × (deed ≡ Who tree range as_txn owners) }
    ensures { (tree : ℕ) (range : Interval) (as_txn : ℕ) (owners : List ℕ) → deed ≡ Who tree range as_txn owners → result ≡ owners }
{
    match deed {
        Deed::Who { owners, .. } => owners,
        _ => unreachable!(),
    }
}

/// Asks as the buffer's own transaction: nobody stands in the way, and the buffer stays. It takes no memory.
fn ask_own(
    alloc: Global,
    table: &RowTable,
    pass: &mut RowPass,
    asking: &Asking,
    as_txn: u64,
) -> Named
    requires of { IsPassOf table.now pass.old }
    requires fresh { (0 < pass.old.rights) × ((knows pass.old).fresh ≡ true) }
    requires asking { IsOf pass.old asking.now.tree asking.now.range asking.now × (asking.now.tree < table.now.plan.trees) }
    requires anchor { HoldsAnchor (knows pass.old) asking.now.tree }
    requires buffer { ShowsBufferOf (knows pass.old) asking.now.tree as_txn }
    ensures of { IsPassOf table.now pass.new × IsSamePass pass.old pass.new }
    ensures none { HoldsNone (knows pass.new) }
    ensures made { MakesDeed (knows pass.old) (knows pass.new) asking.now
        (Who asking.now.tree asking.now.range as_txn result.owners) result.place }
    ensures copy { result.copy ≡ result.owners }
{
    let event = who_event(asking, as_txn, Owners::of(Vec::new(alloc)));
    let place = table.commit(pass, &[], &event, 0);
    table.put(pass, asking.tree);
    Named {
        place,
        owners: Owners::of(Vec::new(alloc)),
        copy: Owners::of(Vec::new(alloc)),
    }
}

/// Asks as another transaction than the buffer's: the buffer ends.
fn ask_other(
    alloc: Global,
    table: &RowTable,
    pass: &mut RowPass,
    asking: &Asking,
    as_txn: u64,
    spins: u32,
    _owner: u64,
) -> Result<Named, Fault>
    requires of { IsPassOf table.now pass.old }
    requires fresh { (0 < pass.old.rights) × ((knows pass.old).fresh ≡ true) }
    requires asking { IsOf pass.old asking.now.tree asking.now.range asking.now × (asking.now.tree < table.now.plan.trees) }
    requires anchor { HoldsAnchor (knows pass.old) asking.now.tree }
    requires buffer { ShowsBufferOf (knows pass.old) asking.now.tree _owner × (_owner ≢ as_txn) }
    ensures of { IsPassOf table.now pass.new × IsSamePass pass.old pass.new }
    ensures none { HoldsNone (knows pass.new) }
    ensures made { IfOk result (λ n. MakesDeed (knows pass.old) (knows pass.new) asking.now
        (Who asking.now.tree asking.now.range as_txn n.owners) n.place × (n.copy ≡ n.owners)) }
    ensures only { IfErr result (λ _. OnlyRows (knows pass.old) (knows pass.new)) }
    ensures refused { IfErr result (IsRefused (knows pass.old) (knows pass.new)) }
{
    let taken = take_buffer(alloc, table, pass, asking.tree, spins)?;
    let HeldBuffer { rows, pairs } = taken;
    let Ok(naming) = name_others(alloc, &pairs, as_txn, &asking.range) else {
        put_chain(table, pass, asking.tree, rows);
        return Err(Fault::OutOfMemory);
    };
    let Naming { owners, copy } = naming;
    let event = who_event(asking, as_txn, owners);
    let place = end_buffer(alloc, table, pass, asking, rows, &pairs, 0, &event, spins)?;
    let owners = owners_in(event.deed);
    Ok(Named {
        place,
        owners,
        copy,
    })
}

/// Asks who holds a range of a tree with a buffer, as a transaction. The buffer ends where that isn't its own. The pass holds the
/// tree's anchor before, and no row afterwards.
///
/// # Errors
/// As those of an ask.
pub(crate) fn who_of_buffer(
    alloc: Global,
    table: &RowTable,
    pass: &mut RowPass,
    asking: &Asking,
    as_txn: u64,
    spins: u32,
) -> Result<Named, Fault>
    requires of { IsPassOf table.now pass.old }
    requires fresh { (0 < pass.old.rights) × ((knows pass.old).fresh ≡ true) }
    requires asking { IsOf pass.old asking.now.tree asking.now.range asking.now × (asking.now.tree < table.now.plan.trees) }
    requires anchor { HoldsAnchor (knows pass.old) asking.now.tree }
    requires buffer { ShowsBuffer (knows pass.old) asking.now.tree }
    ensures of { IsPassOf table.now pass.new × IsSamePass pass.old pass.new }
    ensures none { HoldsNone (knows pass.new) }
    ensures made { IfOk result (λ n. MakesDeed (knows pass.old) (knows pass.new) asking.now
        (Who asking.now.tree asking.now.range as_txn n.owners) n.place × (n.copy ≡ n.owners)) }
    ensures only { IfErr result (λ _. OnlyRows (knows pass.old) (knows pass.new)) }
    ensures refused { IfErr result (IsRefused (knows pass.old) (knows pass.new)) }
{
    let owner = owner_of(table, pass, asking.tree);
    if owner == as_txn {
        return Ok(ask_own(alloc, table, pass, asking, as_txn));
    }
    ask_other(alloc, table, pass, asking, as_txn, spins, owner)
}
