//! The program that says what was heard: reports that a person reckoned, faults, and streams that fail.
//!
//! Tests alone.

mod pages;
mod pictures;
mod reports;
mod statuses;
