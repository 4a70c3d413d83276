//! What every post of the chain shares: what goes through a ring, the two ends of one, what a turn of a post
//! did, how a post waits, and the gate that each `serve` passes.
//!
//! - `link`: the two ends of an empty ring with room for exactly the number asked for. `look_at_both` tells
//!   the consumer of every item that was sent; `drained` holds exactly where all that was sent was received.
//!   Neither changes what was sent or received.
//! - `Pause`: how often a wait yields and how long it sleeps follow from what the waits before it found.
//!
//! Not said: that a wait ends, and what a ring holds while its ends are in two threads.
#![tactic(auto)]

mod ending;
mod ends;
mod flow;
mod gate;
mod pause;
mod post;
mod sends;
mod turn;

pub use ending::Ending;
pub use ends::{GREATEST_CAPACITY, drained, link, look_at_both};
pub use flow::Flow;
pub use gate::{Gate, NoGate};
pub use pause::Pause;
pub use post::Post;
pub use sends::Sends;
pub use turn::Turn;
