//! Laws of the forest. Each function's contract is a law over the definitions; the bodies are empty.
ghost use Rattle.lt_forest.specs.LawsOfGaps.{RowsHaveOneGap, LeftChildsGap, RightChildsGap, SeenIsWithin, TopIsSeen};
ghost use Rattle.lt_forest.specs.LawsOfGaps.{LeftIsSeen, RightIsSeen};
ghost use Rattle.lt_forest.specs.LawsOfParts.{TreesAreOrdered, ReplacedIsInOrder, VisitLeavesOutNone, VisitedIsClosed};
ghost use Rattle.lt_forest.specs.LawsOfParts.{ClosedPartHasAll, PartShowsPairs, WholePartShowsAll, EmptyTreeHasNone};
ghost use Rattle.lt_forest.specs.LawsOfParts.{PartIsReplaced, PartIsLaidForDeed, PartIsLaidAgain, TopRowStays};
ghost use Rattle.lt_forest.specs.LawsOfBuffers.{ChainShowsBuffer, FrontIsGranted, BufferBegins, BufferGrows, BufferEnds};
ghost use Rattle.lt_forest.specs.LawsOfBuffers.{BufferIsDropped, OwnerIsAlone};
ghost use Rattle.lt_forest.specs.LawsOfRows.{RowsAddUp, VacantIsThere, OpeningIsForest, LinksNameFurther, NoneIsNamedTwice};
ghost use Rattle.lt_forest.specs.LawsOfRows.{NoneLeadsBack, NoneOfPoolLeadsBack, PoolIsApart, GapRowsAreLinked};
ghost use Rattle.lt_forest.specs.LawsOfRows.{PartRowsAreLinked, RunRowsAreLinked, PoolRowsAreLinked, TreeRowsAreFurther};
ghost use Rattle.lt_forest.specs.LawsOfRows.{PoolRowsAreFurther, RunRowsAreFurther, TakenRowsAreFurther, PartRowsAreFurther};
ghost use Rattle.lt_forest.specs.LawsOfRows.{ForestReadsItsRows};
ghost use Rattle.lt_forest.specs.LawsOfOrder.{EndsAreHanging, EndsAreBetween, SameOrderKeeps, LeavingOutLoosens};
ghost use Rattle.lt_forest.specs.LawsOfOrder.{MergedRunKeepsRows, PutInKeepsRows, LeftOutKeepsRows};
ghost use Rattle.lt_forest.specs.LawsOfOrder.{MergingLoosens, PartWidens, PlacedShows, MiddleDecides, OwnBecomeOne};
ghost use Rattle.lt_forest.specs.LawsOfOrder.{SpanMayMerge, MergedRunLoosens, PutInLoosens, RowsShowPairs, NoneIsLeftOut};
ghost use Rattle.lt_forest.specs.LawsOfOrder.{OneIsKept, OneIsLeftOut, LeftOutLoosens, LeftOutIsFreed, MergedRunIsGranted};
ghost use Rattle.lt_forest.specs.LawsOfViews.{TopIsRead, LeftIsRead, RightIsRead, ReadLinksNameFurther, NoneIsReadTwice};
ghost use Rattle.lt_forest.specs.LawsOfViews.{NoneIsReadBack, PoolIsReadApart, VacantIsRead, HeldPartShowsPairs};
ghost use Rattle.lt_forest.specs.LawsOfViews.{HeldPartHasAll, HeldWholeShowsAll, HeldChainShowsBuffer, PlanServesDeed};
ghost use Rattle.lt_forest.specs.LawsOfViews.{PlanServesLayout, PlanServesReplacement, PlanBegins, PlanAppends};
ghost use Rattle.lt_forest.specs.LawsOfViews.{PlanEndsBuffer, PlanDropsBuffer, ReadRunIsFurther, ReadPoolIsFurther};
ghost use Rattle.lt_forest.specs.LawsOfViews.{HeldPartIsFurther};
ghost use Rattle.lt_forest.specs.LawsOfPlans.{OtherAnchorsStay, PlanKeepsAnchors, FirstKeepsAnchors, EndKeepsAnchors};
ghost use Rattle.lt_forest.specs.LawsOfPlans.{DropKeepsAnchors, PartGapIsRead, TopKeepsGap, GivenAreNamedWithin};
ghost use Rattle.lt_forest.specs.LawsOfPlans.{ChainIsNamedWithin, GivenAreNamedByHeld, ChainIsNamedByHeld};
ghost use Rattle.lt_forest.specs.LawsOfSearches.{PartIsLawful, HeldPartIsLawful, LawfulPartAscends, LawfulListSplits};
ghost use Rattle.lt_forest.specs.LawsOfSearches.{WidenedIsPart, WidenedIsClosed, HeldWidenedIsPart, HeldWidenedIsClosed};
ghost use Rattle.lt_forest.specs.LawsOfSearches.{NoneHangsBetween, NoneHangsThere, ReachedAreNotAside, ClosedIsVisited};
ghost use Rattle.lt_forest.specs.LawsOfSearches.{HangsNameOthers, HeldHangsNameOthers, CutRowsAreNamed, HeldRowsAreNamed};
ghost use Rattle.lt_forest.specs.LawsOfSearches.{GapRowsTreeMode, NoneOfPoolIsReadBack, EmptyTreeIsRead, AsideIsClosed};
ghost use Rattle.lt_forest.specs.LawsOfSearches.{OverlappingRunHangsNone, FreePlaceIsThere};
ghost use Rattle.lt_forest.specs.LawsOfSides.{SideIsPart, HeldSideIsPart, SideAddsTheRow, SideIsClosed, SideLoosens};
ghost use Rattle.lt_forest.specs.LawsOfSides.{SideHasSameRows, SideDecides, SideShowsGranted, SideShowsHeld, SideShowsFree};
ghost use Rattle.lt_forest.specs.LawsOfSides.{SideShowsWho, SameOrderLays, TurnLaysAtAnchor, TurnLaysAtRow, SideIsLawful};

/// Every row of a search tree has one gap, and a child's gap is its parent's, cut at the parent's range.
pub fn gaps_of_rows()
    ensures one { RowsHaveOneGap }
    ensures left { LeftChildsGap }
    ensures right { RightChildsGap }
    ensures seen { SeenIsWithin }
{}

/// The gaps that a search sees on its way down are true ones, and so are the scores of 100 that it carries with them.
pub fn gaps_on_the_way()
    ensures top { TopIsSeen }
    ensures left { LeftIsSeen }
    ensures right { RightIsSeen }
{}

/// The search trees of a forest are in order, since their pairs are those of a sound table. A tree in which a subtree
/// is replaced stays in order, where the new one fits between what stands beside it and hangs below it.
pub fn order_of_trees()
    ensures forest { TreesAreOrdered }
    ensures replaced { ReplacedIsInOrder }
{}

/// What a search for a range leaves out overlaps nothing: a closed part has each pair of its tree that overlaps the
/// range.
pub fn closed_parts()
    ensures visited { VisitLeavesOutNone }
    ensures closed { VisitedIsClosed }
    ensures all { ClosedPartHasAll }
    ensures shown { PartShowsPairs }
    ensures whole { WholePartShowsAll }
    ensures empty { EmptyTreeHasNone }
{}

/// A part may be laid anew with any ranges that ascend, stay in the gap and stay between what hangs: it is a forest
/// again. Its tree's pairs are the new part's and those that the old part didn't show, and all other rows keep their
/// gaps.
pub fn part_is_replaced()
    ensures { PartIsReplaced }
{}

/// A closed part may be laid anew for an ask that is granted or held, a free, a question who holds and a join: the
/// forest is one of the table after it, with the table's replies, and all other rows keep their gaps.
pub fn part_laid_for_a_deed()
    ensures { PartIsLaidForDeed }
{}

/// A part may be laid anew with the same pairs: the forest is one of the same table, and all other rows keep their
/// gaps.
pub fn part_laid_again()
    ensures { PartIsLaidAgain }
{}

/// The row from which a part hangs stays in its tree.
pub fn top_rows()
    ensures { TopRowStays }
{}

/// A chain's pairs are what its rows grant from the last to the first.
pub fn chains_of_buffers()
    ensures shown { ChainShowsBuffer }
    ensures front { FrontIsGranted }
{}

/// A buffer begins in an empty tree, and gets rows.
pub fn buffers_grow()
    ensures begins { BufferBegins }
    ensures grows { BufferGrows }
{}

/// A buffer ends as a search tree, or is dropped whole.
pub fn buffers_end()
    ensures ends { BufferEnds }
    ensures dropped { BufferIsDropped }
{}

/// A buffer stays where its own transaction asks who holds.
pub fn owner_of_a_buffer()
    ensures { OwnerIsAlone }
{}

/// Rows in use, rows of the pool and anchors are all the rows. At the start none is in use.
pub fn rows_in_all()
    ensures all { RowsAddUp }
    ensures vacant { VacantIsThere }
    ensures opening { OpeningIsForest }
{}

/// Each link is 0 or names a further row, no row is named by two, and none leads back.
pub fn links_of_rows()
    ensures further { LinksNameFurther }
    ensures apart { NoneIsNamedTwice }
    ensures back { NoneLeadsBack }
    ensures pool_back { NoneOfPoolLeadsBack }
    ensures pool_apart { PoolIsApart }
{}

/// Whose links these are.
pub fn rows_with_links()
    ensures gap { GapRowsAreLinked }
    ensures part { PartRowsAreLinked }
    ensures run { RunRowsAreLinked }
    ensures pool { PoolRowsAreLinked }
{}

/// What hangs below a part, and between which bounds, is read off its rows and hangs in key order.
pub fn parts_in_key_order()
    ensures hanging { EndsAreHanging }
    ensures between { EndsAreBetween }
    ensures same { SameOrderKeeps }
{}

/// No bound gets tighter where rows are left out, or a run of them becomes one. A part may be widened by the top row of
/// what hangs, and rows that hold what was laid out show it.
pub fn plans_in_key_order()
    ensures left_out { LeavingOutLoosens }
    ensures merged { MergingLoosens }
    ensures widened { PartWidens }
    ensures placed { PlacedShows }
{}

/// What an ask or a free makes of a tree's pairs is decided by those between all that end before its range and all that
/// begin behind it.
pub fn steps_on_a_part()
    ensures middle { MiddleDecides }
    ensures own { OwnBecomeOne }
{}

/// What a pass reads off the rows that it holds: gaps and links.
pub fn links_that_are_read()
    ensures top { TopIsRead }
    ensures left { LeftIsRead }
    ensures right { RightIsRead }
    ensures further { ReadLinksNameFurther }
    ensures apart { NoneIsReadTwice }
    ensures back { NoneIsReadBack }
    ensures pool_apart { PoolIsReadApart }
    ensures vacant { VacantIsRead }
{}

/// What a pass reads off the rows that it holds: pairs.
pub fn pairs_that_are_read()
    ensures part { HeldPartShowsPairs }
    ensures closed { HeldPartHasAll }
    ensures whole { HeldWholeShowsAll }
    ensures chain { HeldChainShowsBuffer }
{}

/// What a plan owes for a deed in Tree mode, for a change of layout, or for any ranges that fit, is read off what its
/// pass holds.
pub fn plans_for_trees()
    ensures deed { PlanServesDeed }
    ensures layout { PlanServesLayout }
    ensures replaced { PlanServesReplacement }
{}

/// And so is what it owes where it begins a buffer, adds to one, ends one or drops one.
pub fn plans_for_buffers()
    ensures begins { PlanBegins }
    ensures appends { PlanAppends }
    ensures ends { PlanEndsBuffer }
    ensures dropped { PlanDropsBuffer }
{}

/// The rows of a tree, of the pool, of a run along a buffer or from the pool's anchor, and of a part are further rows:
/// so they are no anchors.
pub fn further_rows()
    ensures tree { TreeRowsAreFurther }
    ensures pool { PoolRowsAreFurther }
    ensures run { RunRowsAreFurther }
    ensures taken { TakenRowsAreFurther }
    ensures part { PartRowsAreFurther }
{}

/// The same of the rows that a pass holds.
pub fn further_rows_that_are_read()
    ensures run { ReadRunIsFurther }
    ensures pool { ReadPoolIsFurther }
    ensures part { HeldPartIsFurther }
{}

/// A forest reads the rows of its table and its trees' modes, and nothing else.
pub fn rows_that_a_forest_reads()
    ensures { ForestReadsItsRows }
{}

/// Where a part is laid anew, or a buffer begins, grows, ends or is dropped, no other tree's anchor is in the plan.
pub fn anchors_of_other_trees()
    ensures stay { OtherAnchorsStay }
    ensures laid { PlanKeepsAnchors }
    ensures first { FirstKeepsAnchors }
    ensures ends { EndKeepsAnchors }
    ensures dropped { DropKeepsAnchors }
{}

/// The gaps that the images of a plan give to the rows of a new part are those that its rows will give, and the row
/// from which it hangs keeps the gap that was seen for it.
pub fn gaps_of_a_new_part()
    ensures read { PartGapIsRead }
    ensures top { TopKeepsGap }
{}

/// The rows of a part ascend, and so do those of a part that a pass holds, also as one list with what hangs. A lawful
/// list splits at any range.
pub fn rows_of_a_part()
    ensures part { PartIsLawful }
    ensures held { HeldPartIsLawful }
    ensures ascend { LawfulPartAscends }
    ensures splits { LawfulListSplits }
{}

/// A part that is widened is a part, and a closed one stays closed, also as a pass sees it that holds the row taken
/// into it.
pub fn widened_parts()
    ensures part { WidenedIsPart }
    ensures closed { WidenedIsClosed }
    ensures held_part { HeldWidenedIsPart }
    ensures held_closed { HeldWidenedIsClosed }
{}

/// In a closed part nothing hangs between two rows that overlap the range, and nothing where the range itself has its
/// place. A search reaches exactly the hangs that aren't aside: so it reaches none of a closed part.
pub fn hangs_of_closed_parts()
    ensures between { NoneHangsBetween }
    ensures there { NoneHangsThere }
    ensures reached { ReachedAreNotAside }
    ensures visited { ClosedIsVisited }
    ensures aside { AsideIsClosed }
    ensures run { OverlappingRunHangsNone }
    ensures place { FreePlaceIsThere }
{}

/// What hangs below a part is a further row that isn't of the part, and each row of a part but its uppermost is named
/// by a link of a row of that part.
pub fn rows_that_are_named()
    ensures hangs { HangsNameOthers }
    ensures held_hangs { HeldHangsNameOthers }
    ensures rows { CutRowsAreNamed }
    ensures held_rows { HeldRowsAreNamed }
{}

/// A row that has a gap stands in a tree in Tree mode. No held row of the pool leads back to itself along held rows,
/// and a tree whose held anchor leads nowhere has no pairs.
pub fn trees_and_pools_that_are_read()
    ensures gap { GapRowsTreeMode }
    ensures pool { NoneOfPoolIsReadBack }
    ensures empty { EmptyTreeIsRead }
{}

/// What hangs on one side of a row with a gap makes a part with that row, also as a pass sees it. The part with the row
/// has the row more in key order, and what the part without it says of hangs, bounds and rows holds of it.
pub fn parts_beside_a_row()
    ensures part { SideIsPart }
    ensures held { HeldSideIsPart }
    ensures order { SideAddsTheRow }
    ensures closed { SideIsClosed }
    ensures loose { SideLoosens }
    ensures rows { SideHasSameRows }
    ensures lawful { SideIsLawful }
{}

/// What an ask, a free or a question on one side of a row makes of the part with the row is decided by the part without
/// it.
pub fn deeds_beside_a_row()
    ensures decides { SideDecides }
    ensures granted { SideShowsGranted }
    ensures held { SideShowsHeld }
    ensures free { SideShowsFree }
    ensures who { SideShowsWho }
{}

/// A plan that leaves a part's rows and hangs in their order, as one that turns two rows, meets what a change of layout
/// asks.
pub fn plans_for_layouts()
    ensures order { SameOrderLays }
    ensures anchor { TurnLaysAtAnchor }
    ensures row { TurnLaysAtRow }
{}

/// What names a row that goes to the pool, of a part that is laid anew or of a buffer, is a link of the part's rows, of
/// the buffer's rows, or of their anchor: so it stands on a row that the pass holds.
pub fn rows_that_are_given()
    ensures part { GivenAreNamedWithin }
    ensures buffer { ChainIsNamedWithin }
    ensures held_part { GivenAreNamedByHeld }
    ensures held_buffer { ChainIsNamedByHeld }
{}

/// A run of rows may become one whose range is the span of the asked one and the run's, and a row may be put in where
/// the range overlaps none: no bound gets tighter.
pub fn runs_that_become_one()
    ensures span { SpanMayMerge }
    ensures merged { MergedRunLoosens }
    ensures put_in { PutInLoosens }
    ensures pairs { RowsShowPairs }
    ensures granted { MergedRunIsGranted }
    ensures merged_rows { MergedRunKeepsRows }
    ensures put_in_rows { PutInKeepsRows }
{}

/// Rows may be left out of a part one by one, where the link before such a row or the one behind it is 0: no bound gets
/// tighter, and the new part shows what a free leaves.
pub fn rows_that_are_left_out()
    ensures none { NoneIsLeftOut }
    ensures kept { OneIsKept }
    ensures left_out { OneIsLeftOut }
    ensures loose { LeftOutLoosens }
    ensures freed { LeftOutIsFreed }
    ensures rows { LeftOutKeepsRows }
{}
