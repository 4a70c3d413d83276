//! Laws of the fed rows: each is the contract of a function that does nothing.
ghost use Rattle.xb_closes.specs.Closed.{FeedsEachLineOnce};

/// The fed rows of a line are its rows up to its close, and a close after rows that have none.
pub fn closed_once()
    ensures { FeedsEachLineOnce }
{}
