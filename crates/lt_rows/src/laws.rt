//! Laws of the rows. Each function's contract is a law over the definitions; the bodies are empty.
ghost use Rattle.lt_rows.specs.LawsOfRule.{OneHolds, AllRightsAreAlone, GappedRowIsOfItsTree, ClosedPartHasAllRows};
ghost use Rattle.lt_rows.specs.LawsOfRule.{LimitIsKept, NoneIsGivenAgain, TakenIsHeld};
ghost use Rattle.lt_rows.specs.LawsOfLessons.{HistoryIsLegal, CommitIsLegal, AnchorShowsMode, NoLinkShowsNoPairs, AnchorIsLinked};
ghost use Rattle.lt_rows.specs.LawsOfLessons.{GappedRowIsLinked, PartRowIsLinked, LinksNameFurtherRows, NoRowIsNamedTwice};
ghost use Rattle.lt_rows.specs.LawsOfLessons.{NoneLeadsBackToItself, PoolNamesNoGappedRow, LicensedFindsVacant, GappedRowShowsRange};
ghost use Rattle.lt_rows.specs.LawsOfLessons.{PartShowsPairsOfTree, ClosedPartShowsAll, WholePartShowsTree, WholeChainShowsBuffer};
ghost use Rattle.lt_rows.specs.LawsOfSteps.{TakenRowIsHeld, WrittenRowIsStored, PutRowIsGone, GatheringIsKept};
ghost use Rattle.lt_rows.specs.LawsOfSteps.{CommittedRowHasImage, SettledRowHasImage, UnplannedRowKeepsGap};

/// At every moment no two seats hold one row, and beside a pass with all the rights none holds any. Where a held row has a seen
/// gap, it is a row of its tree in Tree mode.
pub fn who_holds()
    ensures one { OneHolds }
    ensures alone { AllRightsAreAlone }
    ensures gapped { GappedRowIsOfItsTree }
{}

/// At every moment a closed part that a pass holds has every row of its tree that overlaps the range.
pub fn closed_parts()
    ensures { ClosedPartHasAllRows }
{}

/// No row is given again: what a commit gives to the pool, no other seat holds, and no row that another seat holds leads to it.
/// A vacant row is put into a tree or a chain only by a pass that holds it and the pool's anchor.
pub fn rows_given_and_taken()
    ensures given { NoneIsGivenAgain }
    ensures taken { TakenIsHeld }
{}

/// What is committed goes on in the way of the sequential table: wherever it stands, the history with the event is legal.
pub fn commits_are_legal()
    ensures { CommitIsLegal }
{}

/// At every moment there are vacant rows for all passes that are licensed to take one, and such a pass that holds the pool's
/// anchor reads the first of them.
pub fn licences()
    ensures kept { LimitIsKept }
    ensures vacant { LicensedFindsVacant }
{}

/// What a pass reads off the anchors that it holds.
pub fn anchors_that_are_read()
    ensures history { HistoryIsLegal }
    ensures mode { AnchorShowsMode }
    ensures empty { NoLinkShowsNoPairs }
    ensures pool { PoolNamesNoGappedRow }
{}

/// What it reads off the links of anchors, of rows with a seen gap and of rows of a part: they are 0 or name further rows, none is
/// named by two of them, and they never lead back.
pub fn links_that_are_read()
    ensures anchors { AnchorIsLinked }
    ensures gapped { GappedRowIsLinked }
    ensures parts { PartRowIsLinked }
    ensures further { LinksNameFurtherRows }
    ensures once { NoRowIsNamedTwice }
    ensures back { NoneLeadsBackToItself }
{}

/// What it reads off the rows of a part or of a buffer.
pub fn pairs_that_are_read()
    ensures range { GappedRowShowsRange }
    ensures pairs { PartShowsPairsOfTree }
    ensures closed { ClosedPartShowsAll }
    ensures tree { WholePartShowsTree }
    ensures buffer { WholeChainShowsBuffer }
{}

/// What a pass's view has of its rows after a take, a write and a put.
pub fn rows_after_a_step()
    ensures taken { TakenRowIsHeld }
    ensures written { WrittenRowIsStored }
    ensures gone { PutRowIsGone }
    ensures gathering { GatheringIsKept }
{}

/// And after a commit and a settle.
pub fn rows_after_a_plan()
    ensures committed { CommittedRowHasImage }
    ensures settled { SettledRowHasImage }
    ensures unplanned { UnplannedRowKeepsGap }
{}
