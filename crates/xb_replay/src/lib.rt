//! The chain with one owner, who says which post makes the next turn: the very turn that its thread makes.
//!
//! - `Replay::new`: the chain is that of `Chain::link`. Nothing was sent, received or held, no post has
//!   ended, and no line has a mark. Each ring has room for exactly as many items as asked.
//! - `Replay::turn`, of any post, also after turns that ran out of memory: the marks of each line are a
//!   prefix of its tape (`prefixes`). `Moved` made one event (`event`). `Idle` comes only where the post is
//!   not there, or wants an item and took all that was sent to it; `Blocked` only where something is held and
//!   no room is known of; `Ended` exactly where the post has ended. Only the tape station can run out of
//!   memory, and then nothing changed. Every other post stays as it was.
//! - `Replay::marks`: a prefix of the line's tape, and the whole tape once all posts have ended.
//!   `Replay::ended`: true exactly where all posts have ended.
//!
//! Not said: that a replay makes the very turn that a thread makes. It calls the same `turn`, and has no
//! other.
#![tactic(auto)]

mod looks;
mod replay;

pub use replay::Replay;
