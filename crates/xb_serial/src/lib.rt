//! The chain on one thread, for a list of rows at once or one row at a time. It uses no ring.
//!
//! - `key_serial`: for any list of rows and any table, the marks of each of the 10,000 lines are exactly the
//!   tape of that line's record: one entry for each attempt, in order, and nothing of another line.
//! - `Line::take`: one row of one line gives its marks, which are one whole entry or nothing, and leaves the
//!   state for the line's next row. It asks for nothing, cannot fail, and takes no memory. `Line::hear` does
//!   the same with a signal in place of a row. `laws::entrances_agree`: the signals of a line's record, one
//!   by one, give its tape, and those of its rows so far give the marks of the rows.
//! - `Live::take`: whatever rows it took and marks it gave before, it has now taken one more row and given
//!   that row's marks. These are all on the row's line; they are none or one whole entry, 24 at most. It asks
//!   for nothing, cannot fail, and takes no memory. `Live::reopen` forgets the rows and the marks of one
//!   line, and of no other.
//! - `laws::keeps_promises`, for every line, whatever rows were taken: for every list of later rows, its
//!   marks are a prefix of its tape by all rows. Once it is closed, they are its whole tape. While it is
//!   open, they are exactly the entries of its settled attempts, and lack nothing of the tape of the rows so
//!   far but the refusal of an attempt that goes on. They are what the four stages make of the line's rows
//!   alone.
//! - `laws::keyed_in_the_row_of_its_pause`: of 234 5678 no row gives a mark but the last, which reaches the
//!   last digit's pause. `refused_in_the_row_of_the_time_out`: the same of a line that does not dial.
#![tactic(auto)]

mod closes;
pub mod laws;
mod line;
mod live;
mod loops;
mod outcomes;
mod registers;
mod serial;
mod so_far;

pub use line::{Line, MOST_MARKS};
pub use live::Live;
pub use outcomes::outcome_of;
pub use serial::key_serial;
pub use so_far::marks_so_far;
