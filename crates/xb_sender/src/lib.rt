//! The sender stage: what a line's orders put on its tape.
//!
//! - `Sender::new`: an order gives its keying or its one refusal, whatever came before, in order.
//! - `laws::only_the_last_mark_ends` and `one_entry_for_each_order`: of an order's marks exactly the last
//!   ends an entry, so the entries of a line are those of its orders, each once.
#![tactic(auto)]

pub mod laws;
mod sender;

pub use sender::{Sender, marks_of};
