//! The end of a table.
ghost use Rattle.std.specs.Prelude.{◌≡◌, map, IfOk};
ghost use Rattle.std.specs.List.{All, AllByRecursion};
ghost use Rattle.lt_rows.specs.Plan.{setting_of};
ghost use Rattle.lt_seq.specs.Passes.{AreAll, FirstHasAll, IsRest, front_of_first};
ghost use Rattle.lt_locktree.specs.Calls.{sees, IsOfTable, ClosesIt};
ghost use Rattle.lt_manager.specs.Views.{view_of, IsPassOfTable};
ghost use Rattle.lt_manager.specs.Closings.{MissesOthers, HasItsCalls};

use crate::manager_pass::ManagerPass;
use lt_locktree::{Locktree, TreePass};
use lt_rows::RowsLeft;
use lt_seq::{Closed, Receipt};
use std::alloc::{AllocError, Global};

/// The first pass, which has all the rights, and another tell each other all that they have seen.
fn meet(table: &Locktree, first: &mut TreePass, other: &mut TreePass)
    requires first { ClosesIt table.now first.old }
    requires other { IsOfTable table.now other.old }
    ensures first { ClosesIt table.now first.new × ((sees first.new).front ≡ (sees first.old).front) }
    ensures other { MissesOthers (sees first.old).front (sees other.old) }
{
    let note = table.share(first, 0);
    table.learn(other, note);
    let note = table.share(other, 0);
    table.learn(first, note);
}

/// The first pass without its receipts, and the receipts of all.
fn gather(
    table: &Locktree,
    alloc: Global,
    passes: Vec<ManagerPass>,
) -> Result<(TreePass, Vec<Vec<Receipt>>), AllocError>
    requires of { AllByRecursion (IsPassOfTable table.now) passes.items }
    requires first { FirstHasAll (setting_of table.now.rows.plan) (map view_of passes.items) }
    ensures first { IfOk result (λ r. ClosesIt table.now r.0 × ((sees r.0).front ≡ front_of_first (map view_of passes.items))) }
    ensures lists { IfOk result (λ r. map (λ v. v.items) r.1.items ≡ map (λ p. p.mine) passes.items) }
    ensures calls { IfOk result (λ r.
        All (λ p. HasItsCalls (setting_of table.now.rows.plan) (front_of_first (map view_of passes.items)) (view_of p)) passes.items) }
{
    let mut lists = Vec::new(alloc);
    let mut others = passes.into_iter();
    let Some(first) = others.next() else {
        unreachable!();
    };
    let ManagerPass {
        pass: mut first,
        mine,
        notes: _,
    } = first;
    lists.push(mine)?;
    for other in others {
        let ManagerPass {
            mut pass,
            mine,
            notes: _,
        } = other;
        meet(table, &mut first, &mut pass);
        lists.push(mine)?;
    }
    Ok((first, lists))
}

/// Ends the table, and tells its history, its rows in use and what is still held.
pub(crate) fn close(
    table: Locktree,
    alloc: Global,
    passes: Vec<ManagerPass>,
) -> Result<Closed, AllocError>
    requires of { AllByRecursion (IsPassOfTable table) passes.items }
    requires all { AreAll (setting_of table.rows.plan) (map view_of passes.items) }
    ensures rest { IfOk result (IsRest (setting_of table.rows.plan) (front_of_first (map view_of passes.items)) (map view_of passes.items)) }
{
    let (pass, lists) = gather(&table, alloc, passes)?;
    let mut first = Vec::new(alloc);
    first.push(pass)?;
    let RowsLeft { places, used, left } = table.close(alloc, first)?;
    Ok(Closed {
        lists,
        places,
        used,
        left,
    })
}
