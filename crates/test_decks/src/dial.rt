//! Calls dialled, and the program that does it: what no clause says of them, and each public call at values worked
//! out by hand.
//!
//! Tests alone.

mod calls;
mod dialled;
mod speeds;
mod statuses;
mod words;
