//! A dial on the bench: what the program prints of recordings whose figures are worked out by hand, and by a program of
//! their own in fractions.
//!
//! Tests alone.

mod attending;
mod digits;
mod objects;
mod phases;
mod pictures;
mod verdicts;
mod words;
