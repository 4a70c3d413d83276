//! Texts as bytes: a reader read to its end, a text written whole, and a text cut at a byte.
//!
//! What is said of bytes is said of readers whose bytes, and of writers whose contents, a contract can
//! name; those of a process are not.
//!
//! - `read_whole`: on `Ok` exactly the reader's bytes, at most as many as the limit, and the reader stands
//!   at its end. `TooLong` comes only where it has more, `Failed` only where no more was taken than the limit,
//!   and `NoMemory` only where something was. Whatever is returned, no more was taken than the limit and one
//!   byte. However little each read gives, the next follows; that no read failed where `Failed` is returned, no
//!   clause excludes.
//! - `write_whole`: on `Ok` the writer got each byte, and else the beginning. That a failed flush is no
//!   `Ok` is tested, since no contract of a flush tells the two apart.
//! - `cut_at`: what stands before the first such byte and after it, `None` exactly where there is none.
//!   `first_piece`: the first piece between such bytes, and the text of the later ones.
#![tactic(auto)]

mod cutting;
mod reading;
mod writing;

pub use cutting::{cut_at, first_piece};
pub use reading::{ReadFault, read_whole};
pub use writing::{WriteFault, write_whole};
