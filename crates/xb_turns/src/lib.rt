//! What is measured of a dial: its pulses in ticks, what each digit says of its speed and its share of break, how it is
//! judged, and what the digits of a line come to.
//!
//! - `Dial::take`, of a settled record piece by piece: what is told with each piece, and stands whatever comes later. Over
//!   a whole record that is what is told of its settled runs (`laws::the_runs_are_told`).
//! - `laws::the_report_is_told`: the digits are those of the report of `xb_heard`, of the same runs in ms.
//! - `speed_of`, `share_of`, `drift_of`, `tenths_of_ms`: the figures of a digit, each a quotient of ticks that is rounded
//!   to a tenth once, by `quotient_of` of `xb_heard`. The speed and the share of break go by whole periods
//!   (`laws::trains_are_measured`), and are those of the report where a tick is a ms (`laws::figures_are_reported`).
//! - `verdict_of`: how a dial is judged, by these tenths and the windows alone.
//! - `Sums` (`sums_of`): what the digits of a line come to (`laws::all_digits_are_summed`).
#![tactic(auto)]

mod dial;
mod figures;
pub mod laws;
mod sums;
mod train;
mod verdict;
mod windows;

pub use dial::{Dial, Said};
pub use figures::{Drift, drift_of, share_of, speed_of, tenths_of_ms};
pub use sums::{NO_SUMS, Series, Sums, Verdicts, mean_of};
pub use train::{Spread, Train, Wrong};
pub use verdict::{Verdict, verdict_of, word_of};
pub use windows::{Window, Windows};
