//! Trials of the chain on threads and by schedules, each beside the tapes of the chain on one thread.
//!
//! - The trials have gates that hold posts or refuse their start, sources that stop, random decks, rounds in
//!   which posts have turns in some order or none, and random walks.
//! - The short callers of `xb_together` are there too: on their line 5 the operator is called and a second
//!   call is given up.
//!
//! These tests have a crate of their own: in that of `run`, they would have all of it proved once more.

mod calls;
mod counts;
mod decks;
mod faults;
mod gates;
mod passes;
mod played;
mod rounds;
mod schedule;
mod schedules_of_calls;
mod soak;
mod sources;
mod starts;
mod starved;
mod two_calls;
mod uses_of_calls;
mod waits;
mod walks;
mod wanted;
