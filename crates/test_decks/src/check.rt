//! The program that says what is wrong with a deck: what a person finds in it, statuses, and streams that fail.
//!
//! Tests alone.

mod statuses;
