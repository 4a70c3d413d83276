//! The pulse stage: the rows of each line's loop in, seizures, digits, time-outs, releases and closes out,
//! for all lawful limits.
//!
//! - `Pulse::new`: what is sent on a line whose record is closed are exactly the record's signals, however
//!   its runs were cut into rows and whatever rows of other lines come between. Rows after the close add
//!   nothing. While no close has come, what was sent and a close are the signals of the rows so far: so no
//!   signal is kept back.
//! - `Pulse::take` is `step` for a caller without lists: one row in, its signals out.
//! - `PulseState` never counts over 1,000,000 ms or 11 breaks, and comes back from its plain numbers
//!   (`laws::states_come_back`).
#![tactic(auto)]

pub mod laws;
mod plain;
mod pulse;
mod state;
mod step;

pub use plain::PlainPulse;
pub use pulse::Pulse;
pub use state::PulseState;
pub use step::MOST_SIGNALS;
