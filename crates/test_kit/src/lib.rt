//! What tests share: worked examples and fakes.
//!
//! - A worked example is what lines do, in a short form, beside the page of it, worked out by hand.
//! - The fakes are a reader and a writer that fail, or that give and take little at a time; files by their names;
//!   random numbers that are the same in each run; the words of a command line; and what a program gives on such
//!   streams.
//! - Tables of a program's words, input and what it gives, and checks that run them.
//! - A check that fails tells its case, and where what came differs from what was wanted.
#![tactic(auto)]

pub mod attempts;
mod beside;
pub mod decks;
mod dice;
mod folder;
pub mod marks;
mod programs;
pub mod pulses;
pub mod sources;
mod streams;
mod texts;
mod words;

pub use beside::{Beside, shown};
pub use dice::Dice;
pub use folder::Folder;
pub use programs::{
    Case, Fault, Given, Gives, Page, Program, Refusal, Streams, attended, check_cases,
    check_faults, check_pages, check_pieces, check_reads, check_refusals, check_status,
    check_streams, check_writes, run, written,
};
pub use streams::{Halting, Short};
pub use texts::check_texts;
pub use words::{called, words_of};
