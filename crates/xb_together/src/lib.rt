//! How to use the chain from a program of your own. Each function is proved; `docs/EMBEDDING.md` goes through
//! them.
//!
//! - `calls`, `threads`, `schedules`: a whole list of rows, on one thread, on several, or by a schedule of
//!   turns.
//! - `row_by_row`: one row at a time.
//! - `far_end`: from the dial to the sound that the far end hears. `sound_of_calls`: the samples are exactly
//!   the sound of the line's tape, by the cadence asked for. The keys heard in it are, number by number, KP,
//!   the digits that the number's route sends, and ST; and nothing of a number without a route. What is heard
//!   are the tone patterns that are keys (`keys_heard` of `xb_sound`).
//! - `dialled_is_received`: the same of the receiver of `xb_ear`, and of the sound as a disturbance has left
//!   it.
//! - `split_decks_make_the_page`: for all rows, and ranges that take all lines, the pages that the decks of
//!   the ranges say, joined, are the page that all rows make. `planned_decks_make_the_page`: the same for the
//!   ranges of a plan. `written_decks_make_the_page`: the same for the decks that a split of a deck writes
//!   (`IsSplit` of `xb_parts`). The page is that of the deck, which has one, however long it is.
#![tactic(auto)]

mod calls;
mod far_end;
mod large_decks;
mod received;
mod row_by_row;
mod schedules;
mod threads;

pub use calls::marks_of_call;
pub use far_end::sound_of_calls;
pub use large_decks::{
    planned_decks_make_the_page, split_decks_make_the_page, written_decks_make_the_page,
};
pub use received::dialled_is_received;
pub use row_by_row::hear;
pub use schedules::{SoFar, marks_by_schedule};
pub use threads::marks_on_threads;
