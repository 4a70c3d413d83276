//! The chain on one thread: its pages, in which row a live office gives an entry, what `mflive` prints of decks and
//! on streams that fail, the samples of a line that sounds, and rows and signals in structs of numbers.
//!
//! Tests alone.

mod called;
mod faults;
mod keyed;
mod line_signals;
mod printed;
mod reckoned;
mod records;
mod rows;
mod sounded;
mod started;
mod statuses;
mod structs;
mod words;
