//! What is suspicious in the rows of a whole deck, by the attempts that `xb_heard` has of each line.
//!
//! - `Lines` (`specs/Lines.antt`): of each line whether no make of it is heard, so that no attempt begins; and whether its
//!   makes and breaks look exchanged, like those of a wire that was recorded the wrong way round: once they are exchanged,
//!   three clear digits are dialled in an attempt, of pulses that no bell makes, and as they are, in none. The whole deck
//!   is judged by the rows of the lines that do not look so (`rows_of_others`).
//! - `whole_of`: the unit that the times of the deck seem to have, if it is not ms (`wrong_unit`,
//!   `specs/Units.antt`); and whether ten or more attempts begin with a make of under 100 ms and have no
//!   digit, like those of a line that rings (`is_ringing`, `specs/Ringing.antt`). Attempts and digits are
//!   those of the chain's definitions (`specs/Attempts.antt`).
//!
//! Each judgement reads all rows once more, and holds the runs of each line meanwhile.
#![tactic(auto)]

mod counted;
mod exchanged;
mod heard;
pub mod laws;
mod lines;
mod units;
mod whole;

pub use lines::{Lines, Told};
pub use units::Unit;
pub use whole::{Whole, whole_of};
