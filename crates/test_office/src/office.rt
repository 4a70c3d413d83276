//! Decks through the whole office: worked examples, faults, hostile decks, and streams that fail; and the
//! program by its words, which choose how many posts there are and how much room.
//!
//! Tests alone. An example is what some lines do, in a short form, beside the page of it, worked out by
//! hand.

mod asked;
mod choices;
mod cuts;
mod faults;
mod forms;
mod hostile;
mod hostile_decks;
mod keyed;
mod lines;
mod office;
mod streams;
mod texts;
mod words;
