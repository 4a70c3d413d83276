//! Connects one ring with several, one turn at a time. A deal hands items to its outputs in turn; a gather
//! merges pieces of its inputs in turn.
//!
//! - `Deal::turn`, `Gather::turn`: at each return, what was sent, followed by what is held, is the deal, or
//!   the merge, of what was received, with the End. `Moved` made exactly one event; the other turns changed
//!   nothing. `Idle` comes only where no item to take is known of, `Blocked` only where no room is known of.
//!   `Ended` comes exactly where the End was sent by an earlier turn, for a deal to every output.
//! - Their `serve`: when it returns, all up to the End was received, all that follows from it was sent, with
//!   one End to each output, and nothing is held. `into_ends` gives back the same ends. `look` changes no
//!   list.
//!
//! Not said: that a `serve` waits where it cannot go on, and that it returns.
#![tactic(auto)]

mod branches;
mod deal;
mod gather;
mod gathered;
mod held;

pub use branches::MOST_BRANCHES;
pub use deal::Deal;
pub use gather::Gather;
