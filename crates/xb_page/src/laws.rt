//! What the definitions give.
ghost use Rattle.xb_page.specs.ReadBack.{PagesAreReadBack, PagesEndAtLf};
ghost use Rattle.std.specs.Prelude.{◌≡◌};
ghost use Rattle.xb_page.specs.declared.reading.TheConstants.{MOST_PAGE_BYTES};

/// What is read of the page of tapes are the entries that it was printed from.
#[tactic(auto, using(crate::proofs::PagesBack::pages_are_read_back))]
pub fn pages_are_read_back()
    ensures { PagesAreReadBack }
{}

/// The page of tapes has no CR LF: `end_lines_at_lf` leaves it as it is.
#[tactic(auto, using(crate::proofs::LineEnds::pages_end_at_lf))]
pub fn pages_end_at_lf()
    ensures { PagesEndAtLf }
{}

/// How many bytes a page has at most.
pub fn constants()
    ensures most_page_bytes { MOST_PAGE_BYTES ≡ 67108864 }
{}
