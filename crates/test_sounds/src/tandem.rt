//! The office behind an incoming trunk: keys in, its page out, at values worked out by hand.
//!
//! Tests alone.

mod cases;
mod pulses;
mod statuses;
mod streams;
mod tables;
mod words;
