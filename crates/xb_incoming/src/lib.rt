//! An incoming MF register: keys that were heard in, with their times, and what comes of each keying out. It takes no
//! memory but its own ten digits.
//!
//! - `Register::take` and `finish`: what was told after some keys is what is certain by them (`told_by`); with what
//!   `finish` tells where the keys end it is exactly the outcomes of the definition, `outcomes`: one for each KP that
//!   opens the register, and no other.
//! - `laws::told_is_certain`: what was told is a beginning of the outcomes of the keys so far with any later ones; and
//!   nothing longer is.
//! - `laws::keyed_is_registered`: where keys are those of keyings, and no silence in one lasts as long as the time-out,
//!   the outcomes are the numbers of the keyings, in order, one each.
#![tactic(auto)]

mod key;
pub mod laws;
mod phase;
mod register;

pub use key::{CLEAR_MS, MOST_COUNT, Symbol, TIME_OUT_MS, TimedKey};
pub use register::Register;
