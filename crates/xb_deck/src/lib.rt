//! A deck is a route table, a line `---`, and loop rows. This crate finds where it is cut, and what stands in
//! it or its first fault, in bytes or in a stream. Contracts speak of bytes only for streams whose bytes a
//! contract can name.
//!
//! - `Deck::cut`: the parts of a deck at its first line `---`, and `None` exactly where there is no such
//!   line.
//! - `contents_of` (`specs/Contents.antt`) says once what a deck has in it: a table and rows, or the first
//!   fault of its length, its cut, its table and its rows. `read_deck` follows it for the bytes of a stream
//!   to its end; `Deck::open`, `Deck::route_table` and `Deck::loop_rows` for these bytes. `DeckFault` is the
//!   fault of all four.
//! - `read_table`, of a stream: the table, and what the stream has left, are those of `Deck::cut`. `NoCut`
//!   comes exactly as there, and `TooLong` only where the stream has more bytes than the limit and no table
//!   within it. Of any stream, the table is within the limit.
//! - `laws`: a table's lines, the line that cuts, and any rows are cut into the table and the rows; where
//!   worked decks are cut, and which of them are not.
#![tactic(auto)]

mod deck;
mod fault;
pub mod laws;
mod table;

pub use deck::{Deck, MOST_DECK_BYTES, is_cut, read_deck};
pub use fault::DeckFault;
pub use table::{TableFault, read_table};
