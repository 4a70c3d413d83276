//! Large decks in parts: their ranges and decks, the pages of their parts joined, and the program `mfoffice`.
//!
//! Tests alone.

mod cuts;
mod joins;
mod pages;
mod ranges;
mod splits;
mod statuses;
mod wholes;
mod words;
