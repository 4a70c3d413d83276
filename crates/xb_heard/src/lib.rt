//! What a register heard of one line: its attempts, what came of each, their digits with their figures, and what
//! spoiled a digit, each with its place in the recording.
//!
//! - `runs_of_line`, `runs_by_line`: without their places the runs are exactly those of the line's record. Each
//!   names the record, among those of all lines, in which it begins, and when (`IsPlaced`).
//! - `heard_of`, of the runs of a record (`Tells`): the attempts are those of the record, and what came of them
//!   is, one for each and in order, what the chain has of it before routing. The first make of an attempt, its
//!   digits with their pauses and the pulses that no pause ended are all that is heard of it.
//! - A digit names a spoiler exactly where a run of it is out of its limits or it has over ten breaks, and what
//!   is named is true, and the first (`NamesItsFault`). That is exactly where the chain takes it for mutilated
//!   (`laws::mutilated_is_named`).
//! - `row_of`: the figures of a digit, each a quotient in tenths, a half rounded up. The speed and the share of break go
//!   by whole periods, the runs before the last break (`laws::figures_go_by_whole_periods`).
#![tactic(auto)]

mod attempt;
mod digit;
mod fault;
mod figures;
mod joining;
pub mod laws;
mod outcome;
mod parts;
mod report;
mod row;
mod run;

pub use attempt::HeardAttempt;
pub use digit::HeardDigit;
pub use fault::{PulseFault, Spoiler, fault_at};
pub use figures::{Extent, Times, quotient_of, share_by, speed_by, times_of};
pub use outcome::breaks_among;
pub use report::{heard_of, runs_by_line, runs_of_line};
pub use row::{DigitRow, Remark, row_of};
pub use run::PlacedRun;
