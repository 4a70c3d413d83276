//! `mfoffice` without its process: a deck of any length is split by lines into decks that an office takes,
//! and the pages of these are joined to the page of the whole.
//!
//! - `attend`: what the first word names is done with the words after it, as `attend_split` or `attend_join`
//!   says, and nothing else; any other first word, or none, asks for help or the version, or is refused.
//! - `split` and `attend_split`, with status 0: the folder, which had nothing in it, has the deck of each
//!   part, with exactly the rows of its lines, and their list; an office takes their table, and no fewer than
//!   one part and no more than `MOST_PARTS` were asked for. With status 1: one line was told, and there is no
//!   list, unless a name is at fault, where all decks may be whole. Whatever is returned, no decks are left
//!   without their names. A table that an office refuses is told before a fault of the rows, and nothing is
//!   made of it.
//! - `count_rows`: what each line has of all rows, or the fault that stops them. `plan_parts`: ranges that
//!   take all lines, one after the other; an office takes the deck of each. No others that fit are fewer, or
//!   those that are asked for are as even as the lines allow (`AreEven`). `write_parts`: the deck of each
//!   part gets the table, the cut, the header and its rows, in their order, and is kept. The rows are counted
//!   once more.
//! - `join` and `attend_join`, with status 0: exactly the page was written that the files make, by the ranges
//!   of the list, or without a list by the lines that the pages take. With status 1: one line was told, and
//!   nothing was written but the beginning where a write failed. The input is not read.
//! - `join_pages`: the joined page, or the first fault: a part whose lines do not begin where those before it
//!   end, a damaged page, a page with a line of a later part, or the first line that no part has. `Joiner`:
//!   the same, one page at a time. `laws::pages_join`, `parts_make_the_whole`, `pages_make_the_whole`: for
//!   every plan, limits, routes and rows the pages of parts have no fault, and are joined to the page of all
//!   rows, with a list and without one, where the routes are as tables have them (`AreRoutes`).
//!   `laws::joined_parts_are_whole`: whatever is joined takes all lines, and nothing is lost or added.
//! - `LineRange`, `part_of`: exactly the rows of a range of lines, in their order. `laws::ranges_make_parts`:
//!   those of ranges that take all lines are parts of all rows. `list_of`, `ranges_of_list`: the list of
//!   parts, written and read.
//!
//! `SystemFiles` makes the parts on the disk. `SplitFiles::name` is only called with decks that
//! `PartDecks::keep` has kept, which have as many records of each line as the list was made of. What else is
//! said of decks, lists and files holds for those that the caller's `SplitFiles`, `PartDecks` and `Files` say
//! to be known.
//!
//! Not said: that a record which changed between the two readings is noticed where it is as long as before,
//! and on the same line; that a page is of its part's records, since no page tells these; that a list which
//! is written is read back, which tests try.
#![tactic(auto)]

mod counting;
mod damage;
mod decks;
mod disk;
mod given;
mod join_fault;
mod join_program;
mod join_words;
mod joiner;
mod joining;
pub mod laws;
mod list;
mod load;
mod pages;
mod parts_fault;
mod planning;
mod program;
mod range;
mod split_fault;
mod split_files;
mod split_program;
mod split_words;
mod splitting;
mod words;
mod writing;

pub use counting::{count_row, count_rows, record_bytes};
pub use damage::Damage;
pub use decks::PartDecks;
pub use disk::DeckFiles;
pub use join_fault::JoinFault;
pub use join_program::attend_join;
pub use join_words::{JOIN_PROGRAM, JoinRequest};
pub use joiner::Joiner;
pub use joining::join;
pub use list::{ListFault, ListedPart, deck_name, list_of, ranges_of_list};
pub use load::Load;
pub use pages::{PartPage, join_pages, lines_taken};
pub use parts_fault::PartsFault;
pub use planning::{HEAD, PlanFault, PlanPartsFault, plan_parts, plan_ranges};
pub use program::attend;
pub use range::{LineRange, part_of};
pub use split_fault::{MakeFault, SplitFault};
pub use split_files::SplitFiles;
pub use split_program::attend_split;
pub use split_words::{SPLIT_PROGRAM, SplitRequest};
pub use splitting::{MOST_PARTS, split};
pub use words::PROGRAM;
pub use writing::{WriteRowsFault, write_parts};
