//! One line of the body.
ghost use Rattle.std.specs.Prelude.{◌≡◌, ◌++◌, ◌∷◌, [], IfOk, IfErr, OnOk, Some, None};
ghost use Rattle.lt_trace.specs.declared.line.Line.{Line};
ghost use Rattle.lt_trace.specs.declared.line.LineDeed.{LineDeed};
ghost use Rattle.lt_trace.specs.declared.line.LineDeed.TheVariants as LineDeed;
ghost use Rattle.lt_ranges.specs.Interval.{Interval};
ghost use Rattle.lt_trace.specs.Grammar.{IsForm, line_text, fault_of_deed, fault_of_turn, fault_of_form, OrNoMemory};
ghost use Rattle.lt_trace.specs.Reading.{AreEnds, Says, IsFormFault};

use crate::body::Body;
use crate::fault::TraceFault;
use crate::form::{Said, read_form};
use crate::header::Header;
use crate::key_words::Ends;
use crate::line::{Line, LineDeed};
use lt_ranges::KeyRange;

/// The most transactions of a trace.
pub const MOST_TXNS: usize = 1_024;

/// Refuses a tree that the header's number of trees leaves out.
fn check_tree(trees: u32, number: u32, tree: u32) -> Result<(), TraceFault>
    ensures good { OnOk result (fault_of_deed number trees (LineDeed.Escalate tree) ≡ None) }
    ensures fault { IfErr result (λ f. fault_of_deed number trees (LineDeed.Escalate tree) ≡ Some f) }
{
    if tree >= trees {
        return Err(TraceFault::TreeOutOfRange { line: number });
    }
    Ok(())
}

/// The range that a line names in a tree, unless the tree or the keys are a fault.
fn range_of(trees: u32, number: u32, tree: u32, ends: Ends) -> Result<KeyRange, TraceFault>
    ensures found { (range : Interval) → AreEnds ends range →
        IfOk result (λ found. (found ≡ range) × (fault_of_deed number trees (LineDeed.Try tree range) ≡ None)) }
    ensures fault { (range : Interval) → AreEnds ends range →
        IfErr result (λ f. fault_of_deed number trees (LineDeed.Try tree range) ≡ Some f) }
{
    check_tree(trees, number, tree)?;
    let Ends::Fit { left, right } = ends else {
        return Err(TraceFault::KeyTooLong { line: number });
    };
    match KeyRange::new(left, right) {
        Ok(range) => Ok(range),
        Err(_) => Err(TraceFault::Backwards { line: number }),
    }
}

/// The deed that a line asks for, unless its tree or its keys are a fault.
fn deed_of(trees: u32, number: u32, said: Said) -> Result<LineDeed, TraceFault>
    ensures found { (deed : LineDeed) → Says said deed →
        IfOk result (λ found. (found ≡ deed) × (fault_of_deed number trees deed ≡ None)) }
    ensures fault { (deed : LineDeed) → Says said deed → IfErr result (λ f. fault_of_deed number trees deed ≡ Some f) }
{
    match said {
        Said::Try { tree, ends } => {
            let range = range_of(trees, number, tree, ends)?;
            Ok(LineDeed::Try { tree, range })
        }
        Said::Lock { tree, ends } => {
            let range = range_of(trees, number, tree, ends)?;
            Ok(LineDeed::Lock { tree, range })
        }
        Said::End => Ok(LineDeed::End),
        Said::Abort => Ok(LineDeed::Abort),
        Said::Escalate { tree } => {
            check_tree(trees, number, tree)?;
            Ok(LineDeed::Escalate { tree })
        }
        Said::Big => Ok(LineDeed::Big),
    }
}

/// Refuses one more line of the transaction behind these lines where that is a fault.
fn check_turn(number: u32, before: &Body, txn: u64) -> Result<(), TraceFault>
    ensures good { OnOk result (fault_of_turn number before.now txn ≡ None) }
    ensures fault { IfErr result (λ f. fault_of_turn number before.now txn ≡ Some f) }
{
    if before.has_ended(txn) {
        return Err(TraceFault::AfterEnd { line: number });
    }
    if !before.has_begun(txn) && before.txns() >= MOST_TXNS {
        return Err(TraceFault::TooManyTxns { line: number });
    }
    Ok(())
}

/// Puts the line that the text spells behind the others, unless something is wrong with it.
pub(crate) fn add_line(
    header: &Header,
    body: &mut Body,
    number: u32,
    text: &[u8],
) -> Result<(), TraceFault>
    ensures added { OnOk result ((line : Line) × IsForm header.now.version line × (text.now ≡ line_text line) × (line.number ≡ number)
        × (fault_of_form number header.now.trees body.old (Some line) ≡ None) × (body.new ≡ body.old ++ line ∷ [])) }
    ensures fault { IfErr result (OrNoMemory (IsFormFault header.now body.old number text.now)) }
{
    let Some((txn, said)) = read_form(header.version, text) else {
        return Err(TraceFault::BadLine { line: number });
    };
    let deed = deed_of(header.trees, number, said)?;
    check_turn(number, body, txn)?;
    body.push(Line { txn, number, deed })?;
    Ok(())
}
