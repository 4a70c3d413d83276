//! A stage between two rings: it takes items from one ring and sends what the stage makes of them to the
//! other, one turn at a time.
//!
//! - `Station::turn`: at each return, what was sent, followed by what is held, is the image of what was
//!   received, with the End. `Moved` made exactly one event; the other turns changed nothing. `Idle` comes
//!   only where no item to take is known of, `Blocked` only where no room is known of, and `Ended` exactly
//!   where an earlier turn sent the End.
//! - `Station::serve`: when it returns, all up to the End was received, all that follows from it was sent,
//!   with one End, and nothing is held. `into_ends` gives back the same ends. `look` changes no list.
//!
//! Not said: that `serve` waits where it cannot go on, and that it returns.
#![tactic(auto)]

mod phase;
mod states;
mod station;

pub use station::Station;
