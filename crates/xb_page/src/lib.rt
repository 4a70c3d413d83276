//! Pages read back: their entries, or the first fault with its text line.
//!
//! - `page_entries`: exactly what `entries_of_page` says of the text, the entries in their order, or its
//!   first fault, unless memory ran out: a line that is no four digits or comes before that of the entry
//!   above, a number that is not the next of its line, neither KEYED nor REFUSED, a wrong trunk group or
//!   key (also one beside tones of another), a wrong refusal, totals that are not those of the entries, no
//!   totals, text after them.
//! - `PageEntry`: its line, its number, its marks, and by its last mark whether and why it is refused.
//! - `read_page`: of a page of lines from a first one on, the text of its entries and how many are keyed and
//!   refused, or the first fault. Each text line is judged by the same definition (`entry_of_fields`), and
//!   takes no memory.
//! - `end_lines_at_lf`: a page whose lines may end at CR LF, with LF in its place (`lf_ended`). Who reads a file calls
//!   it first; `laws::pages_end_at_lf` says that it leaves the page of tapes as it is.
//! - `laws::pages_are_read_back`: what is read of the page of tapes, of at most 10,000 lines, are exactly the
//!   entries that it was printed from.
//!
//! Not said: that a text that is read is a page, byte for byte. Frequencies and counts may have leading
//! zeros, and the marks of a keyed entry stand in any order.
#![tactic(auto)]

mod checking;
mod entry;
mod fault;
mod fields;
mod heads;
pub mod laws;
mod line_ends;
mod page_place;
mod pieces;
mod reading;
mod totals;

pub use entry::PageEntry;
pub use fault::PageFault;
pub use heads::{ReadPage, read_page};
pub use line_ends::end_lines_at_lf;
pub use reading::{MOST_PAGE_BYTES, page_entries};
