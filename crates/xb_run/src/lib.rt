//! Runs the chain on threads, each post on a thread of its own. All posts and rings are made once.
//!
//! - `Chain::link` takes any source, any table, 1 to 8 senders and rings of 1 to 1,024. Both ends of each
//!   ring are those of one ring with room for exactly the number asked for. Nothing was sent, received or
//!   held, and no line has a mark. The stages are made of the table's limits, plan and routes, and each post
//!   keeps its law. `run` and a replay take their posts from it.
//! - `run` takes the same. Where it returns tapes, the source stops with an end, and the marks of each of the
//!   10,000 lines are exactly the tape of that line's record, of the rows that the source still had. `Rows`
//!   comes only with the fault that the source stops with, and `NoThread` only with a post of the chain.
//! - Nothing is assumed of a thread but its promise, which `start` makes and the join hands on: the ends are
//!   those of the post, and where it served, what its `serve` ensures. `finish` gives tapes only where every
//!   post was served and the feed met no fault.
//!
//! Not said: that a thread starts or makes progress, that `run` ends, and which of several refused posts is
//! named; `bank` of `test_office` tries these.
#![tactic(auto)]

mod branches;
mod chain;
mod done;
mod fault;
mod finish;
mod originating;
mod outgoing;
mod running;
mod senders;
mod start;

pub use chain::Chain;
pub use fault::BankFault;
pub use running::run;
