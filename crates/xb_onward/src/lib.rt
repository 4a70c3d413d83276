//! An incoming register on plain structs, and the office behind it: keys that a caller heard on a trunk, what became of
//! each keying, and the marks by which its number goes on. No call takes memory, and nothing is kept between two calls.
//! Any bytes in the structs have a meaning.
//!
//! - `register_keys`: what the register of `xb_incoming` tells of keys so far; and where they have ended, their
//!   outcomes, one for each KP that opens the register.
//! - `send_on`: the marks of the order of an outcome, by a table: its keying or its one refusal, whatever length the
//!   number has.
//! - `laws::stands_as_at_first`: after an ST that told an outcome, and before a KP, the keys so far may be forgotten.
#![tactic(auto)]

mod key;
pub mod laws;
mod outcome;
mod registering;
mod sending;

pub use key::PlainKey;
pub use outcome::PlainOutcome;
pub use registering::{FewRooms, register_keys};
pub use sending::{NotSent, send_on};
