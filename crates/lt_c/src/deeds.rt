//! Frees, questions and joins, each behind a look of its own.
ghost use Rattle.std.specs.Prelude.{◌≡◌, ◌<◌, IfOk, IfErr};
ghost use Rattle.lt_seq.specs.declared.event.Deed.TheVariants.{Free, Who};
ghost use Rattle.lt_locktree.specs.Calls.{sees, IsOfTable, StaysOf, Makes, Joins};
ghost use Rattle.lt_c.specs.Behind.{Behind, Faults};

use crate::looking::look_for_place;
use lt_locktree::{Locktree, Named, TreePass};
use lt_ranges::KeyRange;
use lt_seq::{Fault, JoinNote};

/// Frees the transaction's ranges that overlap the range. The answer is the event's place, and how many ranges went.
///
/// # Errors
/// `Busy`, `OutOfMemory` and `HistoryFull`; the table is as before.
pub(crate) fn free(
    table: &Locktree,
    pass: &mut TreePass,
    txn: u64,
    tree: u32,
    range: &KeyRange,
    first: bool,
) -> Result<(u64, u64), Fault>
    requires of { IsOfTable table.now pass.old }
    requires right { 0 < (sees pass.old).rights }
    requires tree { tree < table.now.rows.plan.trees }
    ensures of { StaysOf table.now pass.old pass.new }
    ensures made { IfOk result (λ f. Behind (sees pass.old) (λ seen look. Makes seen (sees pass.new) txn (Free tree range.now first f.1) f.0)) }
    ensures faults { IfErr result (Faults (sees pass.old) (sees pass.new)) }
{
    look_for_place(table, pass)?;
    table.free(pass, txn, tree, range, first)
}

/// Asks whose ranges overlap a range, but those of the transaction `as_txn`.
///
/// # Errors
/// As those of `free`.
pub(crate) fn who(
    table: &Locktree,
    pass: &mut TreePass,
    txn: u64,
    as_txn: u64,
    tree: u32,
    range: &KeyRange,
) -> Result<Named, Fault>
    requires of { IsOfTable table.now pass.old }
    requires right { 0 < (sees pass.old).rights }
    requires tree { tree < table.now.rows.plan.trees }
    ensures of { StaysOf table.now pass.old pass.new }
    ensures made { IfOk result (λ n. Behind (sees pass.old)
        (λ seen look. Makes seen (sees pass.new) txn (Who tree range.now as_txn n.owners) n.place)) }
    ensures faults { IfErr result (Faults (sees pass.old) (sees pass.new)) }
{
    look_for_place(table, pass)?;
    table.who(pass, txn, as_txn, tree, range)
}

/// Joins each longest run of neighbours of one owner in a tree into one range.
///
/// # Errors
/// As those of `free`.
pub(crate) fn join(
    table: &Locktree,
    pass: &mut TreePass,
    txn: u64,
    tree: u32,
) -> Result<JoinNote, Fault>
    requires of { IsOfTable table.now pass.old }
    requires right { 0 < (sees pass.old).rights }
    requires tree { tree < table.now.rows.plan.trees }
    ensures of { StaysOf table.now pass.old pass.new }
    ensures made { IfOk result (λ note. Behind (sees pass.old) (λ seen look. Joins seen (sees pass.new) txn tree note)) }
    ensures faults { IfErr result (Faults (sees pass.old) (sees pass.new)) }
{
    look_for_place(table, pass)?;
    table.escalate(pass, txn, tree)
}
