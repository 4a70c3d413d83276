//! The tapes of all lines: their marks, their entries, and the page that prints them.
//!
//! - `Tapes` is a list of marks for each line. `marks`, `entries`, `entry` and `lines` are that list and
//!   its entries. `push` puts a mark on its own line; where memory ran out, the tapes are as they were.
//! - `page`: exactly the text of the page (`page_text`), whose totals count the entries that a refusal
//!   ends, and the others.
//! - The lines of a page by themselves: `write_entry` (`entry_text`), what it writes after the line and the number
//!   (`write_entry_body`), `write_totals` (`totals_text`), and `write_mark_line` for a mark that is printed alone
//!   (`mark_line`). `is_refused` tells by which of the two totals an entry is counted.
#![tactic(auto)]

mod entries;
mod printing;
mod tapes;
mod tapes_iter;

pub use printing::{
    is_refused, page, write_entry, write_entry_body, write_mark_line, write_totals,
};
pub use tapes::Tapes;
pub use tapes_iter::EachTape;
