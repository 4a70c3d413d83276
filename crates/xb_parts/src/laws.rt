//! What the definitions give: each law is the contract of a function that does nothing.
ghost use Rattle.xb_parts.specs.Ranges.{RangesMakeParts};
ghost use Rattle.xb_parts.specs.Constants.{MostPartsIsRight};
ghost use Rattle.xb_parts.specs.Counts.{FittingRangesHaveFew};
ghost use Rattle.xb_parts.specs.Loads.{FullRangesAreFewest};
ghost use Rattle.xb_parts.specs.Given.{PagesMakeTheWhole};
ghost use Rattle.xb_parts.specs.Joining.{JoinedPartsAreWhole, PartsMakeTheWhole};
ghost use Rattle.xb_parts.specs.PartPages.{PagesJoin};

/// The rows of ranges that take all lines are parts of all rows, whose pages make the page of the whole.
#[tactic(auto, using(crate::proofs::RangeParts::ranges_make_parts))]
pub fn ranges_make_parts()
    ensures { RangesMakeParts }
{}

/// The most parts, as it is.
pub fn constants()
    ensures { MostPartsIsRight }
{}

/// Where the loads of a range's lines are no more than a part may have, its rows are no more, and their
/// text is no longer.
pub fn fitting_ranges_have_few()
    ensures { FittingRangesHaveFew }
{}

/// Ranges of which each is as long as it may be are no more than any others that take all lines and fit:
/// those that `plan_ranges` gives are the fewest.
pub fn full_ranges_are_fewest()
    ensures { FullRangesAreFewest }
{}

/// The page of rows of all lines is the entries of the pages of their parts, part by part, and a line
/// with the sums of their totals, where the parts take the rows of contiguous ranges of lines.
#[tactic(auto, using(crate::proofs::JoinedParts::pages_join))]
pub fn pages_join()
    ensures { PagesJoin }
{}

/// What `join_pages` makes of the pages of the parts of rows is the page of the rows: no part has a fault.
#[tactic(auto, using(crate::proofs::JoinedPages::parts_make_the_whole))]
pub fn parts_make_the_whole()
    ensures { PartsMakeTheWhole }
{}

/// The same without a list, by the lines that the pages take themselves.
#[tactic(auto, using(crate::proofs::TakenPages::pages_make_the_whole))]
pub fn pages_make_the_whole()
    ensures { PagesMakeTheWhole }
{}

/// Parts that are joined take all lines, the page of each is a text of entries and a line of totals, and the
/// page that they make is all these texts and the sums of the totals.
pub fn joined_parts_are_whole()
    ensures { JoinedPartsAreWhole }
{}
