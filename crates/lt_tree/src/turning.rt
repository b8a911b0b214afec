//! On the way down a row is turned with its child, where the rows below it stand deeper on one side than on the other.
ghost use Rattle.std.specs.Prelude.{◌≡◌, ◌≢◌, ◌+◌, ◌<◌, MatchOption, IfSome};
ghost use Rattle.lt_rows.specs.Nodes.{SameRange};
ghost use Rattle.lt_rows.specs.Handles.{knows, IsPassOf, IsSamePass};
ghost use Rattle.lt_tree.specs.States.{OnlyMet, SeesOn};
ghost use Rattle.lt_tree.specs.Descents.{free_rows};
ghost use Rattle.lt_tree.specs.Turnings.{HoldsPair, HoldsThree, TakesDeeper, IsMeasured, StaysAs};

use crate::estimates::{Side, Turned, deeper_side, link_on, measure, relink, side_to, turn};
use crate::settling::settle_rows;
use lt_ranges::KeyRange;
use lt_rows::{RowImage, RowPass, RowTable, Take};

/// A row's child on the side on which the row is deeper.
#[derive(Clone, Copy)]
pub struct Deeper {
    pub side: Side,
    pub row: RowImage,
}

/// Takes the child of a row on the side on which the row is deeper by two or more, by one try.
fn take_deeper(
    table: &RowTable,
    pass: &mut RowPass,
    tree: u32,
    asked: &KeyRange,
    here: &RowImage,
    row: &RowImage,
) -> Option<Deeper>
    requires of { IsPassOf table.now pass.old }
    requires right { 0 < pass.old.rights }
    requires tree { tree < table.now.plan.trees }
    requires pair { HoldsPair (knows pass.old) tree asked.now here.now row.now }
    ensures of { IsPassOf table.now pass.new × IsSamePass pass.old pass.new }
    ensures taken { MatchOption result (OnlyMet (knows pass.old) (knows pass.new))
        (λ d. TakesDeeper (knows pass.old) (knows pass.new) row.now d.side d.row) }
{
    let side = deeper_side(row)?;
    let link = link_on(row, side);
    if link == 0 {
        return None;
    }
    let deeper = (link - 1) as u32;
    match table.take(pass, deeper) {
        Take::Taken => {
            let row = table.load_row(pass, deeper);
            Some(Deeper { side, row })
        }
        Take::HeldBy(_) => None,
    }
}

/// Turns a row with its child below the row that stays, and gives the lower one back. The answer has the row that stays and the upper
/// one.
fn turn_three(
    table: &RowTable,
    pass: &mut RowPass,
    tree: u32,
    asked: &KeyRange,
    here: &RowImage,
    measured: RowImage,
    row: &RowImage,
    deeper: &Deeper,
) -> (RowImage, RowImage)
    requires of { IsPassOf table.now pass.old }
    requires tree { tree < table.now.plan.trees }
    requires measured { IsMeasured tree here.now measured }
    requires range { SameRange measured.words here.now.words }
    requires three { HoldsThree (knows pass.old) tree asked.now here.now row.now deeper.now.side deeper.now.row }
    ensures of { IsPassOf table.now pass.new × IsSamePass pass.old pass.new }
    ensures sees { SeesOn (knows pass.old) (knows pass.new) }
    ensures pair { HoldsPair (knows pass.new) tree asked.now result.0 result.1 }
    ensures stays { StaysAs tree here.now result.0 }
    ensures free { free_rows (knows pass.new).held ≡ free_rows (knows pass.old).held + 1 }
{
    let side = side_to(here, u64::from(row.row) + 1);
    let stays = relink(measured, side, deeper.row.row + 1);
    let Turned { upper, lower } = turn(row, &deeper.row, deeper.side);
    settle_rows(table, pass, &[stays, upper, lower]);
    table.put(pass, lower.row);
    (stays, upper)
}

/// Settles the estimate of a row that stays, where it changes.
fn settle_measured(
    table: &RowTable,
    pass: &mut RowPass,
    tree: u32,
    asked: &KeyRange,
    here: &RowImage,
    measured: Option<RowImage>,
    row: &RowImage,
) -> RowImage
    requires of { IsPassOf table.now pass.old }
    requires tree { tree < table.now.plan.trees }
    requires measured { IfSome measured (λ now. IsMeasured tree here.now now × (here.now.row ≢ tree)) }
    requires range { IfSome measured (λ now. SameRange now.words here.now.words) }
    requires pair { HoldsPair (knows pass.old) tree asked.now here.now row.now }
    ensures of { IsPassOf table.now pass.new × IsSamePass pass.old pass.new }
    ensures sees { SeesOn (knows pass.old) (knows pass.new) }
    ensures pair { HoldsPair (knows pass.new) tree asked.now result row.now }
    ensures stays { StaysAs tree here.now result }
    ensures free { free_rows (knows pass.new).held ≡ free_rows (knows pass.old).held }
{
    match measured {
        None => *here,
        Some(stays) => {
            settle_rows(table, pass, &[stays]);
            stays
        }
    }
}

/// Sets the estimate that a row gives to the held one above it. Where it is deeper on one side by two or more, it is turned with its
/// child there, unless another pass holds that. The answer has the row that stays and its child on the asked range's side, which are
/// held.
///
/// It takes no memory and is never refused.
pub(crate) fn turn_below(
    table: &RowTable,
    pass: &mut RowPass,
    tree: u32,
    asked: &KeyRange,
    here: &RowImage,
    row: &RowImage,
) -> (RowImage, RowImage)
    requires of { IsPassOf table.now pass.old }
    requires right { 0 < pass.old.rights }
    requires tree { tree < table.now.plan.trees }
    requires pair { HoldsPair (knows pass.old) tree asked.now here.now row.now }
    ensures of { IsPassOf table.now pass.new × IsSamePass pass.old pass.new }
    ensures sees { SeesOn (knows pass.old) (knows pass.new) }
    ensures pair { HoldsPair (knows pass.new) tree asked.now result.0 result.1 }
    ensures stays { StaysAs tree here.now result.0 }
    ensures free { free_rows (knows pass.new).held ≡ free_rows (knows pass.old).held }
{
    let measured = measure(tree, here, row);
    match take_deeper(table, pass, tree, asked, here, row) {
        None => {
            let stays = settle_measured(table, pass, tree, asked, here, measured, row);
            (stays, *row)
        }
        Some(deeper) => {
            let measured = measured.unwrap_or(*here);
            turn_three(table, pass, tree, asked, here, measured, row, &deeper)
        }
    }
}
