//! Times of day beside times in ms: what `--since TIME` is to `mflive` and to `mfrx`.
//!
//! - `since_of`: the instant that a word says, as jiff reads it, or that it says none (`ReadsSince`). `no_time` says
//!   why it is none.
//! - `time_of` and `times_of`: the text of the time of day so many ms after an instant, in UTC, as
//!   2026-11-25T20:00:00.5Z (`IsTimeText`); nothing just where that is past the last instant that there is
//!   (`LAST_TIME`, `IsLateAfter`). What is told so is what any clock tells that tells the times of `jiff_core`
//!   (`IsClockSince`).
//! - `with_time`: exactly an object of JSON that also has such a time under a name.
#![tactic(auto)]

mod objects;
mod reason;
mod since;
mod times;

pub use objects::with_time;
pub use reason::no_time;
pub use since::{Since, since_of};
pub use times::{LAST_TIME, TimeText, Times, time_of, times_of};
