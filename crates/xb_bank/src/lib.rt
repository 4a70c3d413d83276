//! The bank: rows of many lines in, a tape for each line out. This crate has nothing of its own. It passes
//! on, under one name, what its callers use of the chain and of the replay.
#![tactic(auto)]

pub use xb_closes::fed_rows;
pub use xb_model::{Listed, RowSource};
pub use xb_posts::{Feed, TapeStation};
pub use xb_replay::Replay;
pub use xb_ring::{GREATEST_CAPACITY, Gate, MOST_BRANCHES, NoGate, Post, Turn};
pub use xb_run::{BankFault, run};
pub use xb_serial::key_serial;
pub use xb_tape::Tapes;
