//! Numbers routed, and the program that does it: what no clause says of them, and each public call at values
//! worked out by hand.
//!
//! Tests alone.

mod statuses;
mod streams;
mod tables;
mod words;
