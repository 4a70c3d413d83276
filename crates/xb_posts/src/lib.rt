//! The posts at the two ends of the chain: the feed and the tape station.
//!
//! - `Feed::new`: it has to send the fed rows of its source, whatever rows and stop the source gives, and
//!   then the End. `Feed::turn`: what was sent, followed by what is still to be sent, stays as it was.
//!   `Moved` sent one item, or a slice of 2 to 16 rows, all that it held by then; what it still holds does
//!   not all fit. The turn that meets a fault returns it, once. `Feed::serve`: all was sent, and the fault
//!   returned is the source's stop, or that memory ran out.
//! - `TapeStation::turn`: each line has its own of the marks received, in order. Where memory runs out,
//!   nothing was received and the tapes are unchanged. `TapeStation::serve`: everything up to the End was
//!   received; after `Err` marks were dropped.
//!
//! Not said: whether a slice was sent by one push or item by item.
#![tactic(auto)]

mod course;
mod feed;
mod filling;
pub mod laws;
mod tape_station;

pub use feed::Feed;
pub use filling::AHEAD;
pub use tape_station::TapeStation;
