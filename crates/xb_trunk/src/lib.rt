//! A trunk that sounds while its line dials: rows of the line are the clock, and the samples that they write are
//! silence, or the keys of the calls that they complete.
//!
//! - `Trunk::take_row` writes the samples of a row, 8 for each ms: the beginning of what waits to be heard, and then
//!   silence. With the row's end the sound of the marks that it completes waits too, after what waits already.
//!   `Trunk::write_rest` writes all that waits.
//! - So rows and a call of `write_rest` write `whole_sound` of them (`specs/Sounded.antt`), row by row. What the laws
//!   say of it: rows of t ms write 8 t samples (`laws::time_is_kept`). What they wrote never depends on later rows
//!   (`laws::nothing_is_taken_back`). What waits is heard next, whole. Where nothing waits the sound of marks begins
//!   with the end of the row that completes them, so that KP begins after the lead, to the sample
//!   (`laws::calls_sound_whole`). However rows are cut, a receiver hears exactly the keys of all calls, in order
//!   (`laws::keys_are_heard`).
//!
//! Start dial: a number is keyed only once the far office gave its start signal, a wink.
//!
//! - `StartDial::take_lead_row` takes the rows of the far office's lead, and `take_clock_row` those of the line that
//!   dials, which are the clock. With the end of each of these the keying that waits first is keyed, given up, or waits
//!   on (`specs/Starts.antt`).
//! - What the laws say of it: nothing is keyed without its wink (`laws::no_key_without_wink`). Each keying is keyed,
//!   given up or waits, in order, and once (`laws::each_is_settled_once`). One is given up only where no wink was known
//!   when its time had passed (`laws::given_up_without_wink`).
#![tactic(auto)]

mod fault;
pub mod laws;
mod sample_blocks;
mod start_dial;
mod trunk;

pub use fault::TrunkFault;
pub use start_dial::{Fate, Settled, StartDial};
pub use trunk::Trunk;
