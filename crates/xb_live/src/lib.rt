//! The program `mflive` without its process: it reads a deck as it comes, and writes each entry, with its
//! number, in the row that completes it.
//!
//! - `Counting` is a live office that numbers the entries of each line and counts those of all lines. What it
//!   has counted are the entries that the rows so far complete.
//! - `take_row` and `end` write exactly what is told of rows, and on a fault what is told of the first rows.
//!   `SortsIntoPage` (`specs/Pages.antt`): sorted by line and number, what is printed of rows that end is
//!   their page.
//! - As JSON an entry has the times of its line and what was dialled: those of the line's record so far
//!   (`told_of_rows`, `specs/TimedEntries.antt`). `Hearings` keeps them, row by row. By a table that was
//!   read, its line of the page is made of its object alone (`laws::objects_are_lines`). The times of a line
//!   ascend (`laws::times_ascend`).
//! - With events (`specs/Events.antt`, `specs/Told.antt`) each signal of a line's attempts is an object too,
//!   in the row that makes it (`TellsAll`). Without them the text is that of the entries' objects
//!   (`laws::events_left_out`).
//! - Counted from a time of day, an object also has its times as such (`xb_clock`), as told by any clock that
//!   tells the times of `jiff_core`. A time past the last of these is a fault.
//! - `run_deck` (`Runs`, `specs/Runs.antt`): what was written of a deck is what its table and its rows say,
//!   also where a fault stops them.
//! - `sound_deck` (`SoundsDeck`, `specs/SoundedDecks.antt`): the rows of one line of a deck are the clock of its trunk,
//!   and exactly the samples of these rows were written, with the calls that they complete (`xb_trunk`). What is heard
//!   of them are the keys of the line's marks (`laws::line_is_heard`).
//! - `attend` says the same of the program, by its status.
#![tactic(auto)]

mod counting;
mod deck_entries;
mod deck_sound;
mod entry_text;
mod entry_writing;
mod events;
mod fault;
mod hearings;
pub mod laws;
mod line_hearing;
mod objects;
mod program;
mod request;
mod wink_start;
mod words;

pub use counting::Counting;
pub use deck_entries::run_deck;
pub use deck_sound::sound_deck;
pub use entry_text::EntryForm;
pub use entry_writing::{end, take_row};
pub use fault::{EntriesFault, LiveFault};
pub use hearings::Hearings;
pub use line_hearing::Hearing;
pub use request::{Asked, Request};
pub use words::PROGRAM;
