//! Chance that a seed gives again: the generator splitmix64 (Steele, Lea and Flood, "Fast Splittable Pseudorandom Number
//! Generators", 2014).
//!
//! - `word_of`: the word of 64 bits that the generator gives in a state, and `state_after`: the state after so many
//!   steps.
//! - `swing`: a whole number from -peak to peak, of the word after n + 1 steps. `laws::swings_go_on`: after m steps it goes
//!   on with that of step m + n.
#![tactic(auto)]

mod draw;
pub mod laws;
mod word;

pub use draw::swing;
pub use word::{state_after, word_of};
