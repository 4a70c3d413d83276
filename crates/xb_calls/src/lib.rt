//! Calls, and the loop rows that dial them.
//!
//! - `rows_of_calls`, for a speed that fits some lawful limits: exactly the rows that dial the calls, in
//!   either order. By every plan by which all numbers are complete, and all lawful limits that the speed
//!   fits, exactly each line's numbers are heard on it, in the order dialled, and its tape is exactly their
//!   entries (`heard`). `laws::dialled_is_heard` says the same of every list of rows in which each
//!   line's rows are those that it dials.
//! - `Speed::fits` is `Ok` exactly where the five times fit the limits, else the first that does not.
//!   `Speed::ten` and `twenty` fit the standard limits.
//! - `calls_of_text`: the calls of the text, or, unless memory ran out, its first fault with its text line
//!   and what stands there in place of a line. With a plan, each number is complete by it.
//! - `without_mark`, `strip_carriage_return`, `is_passed_over`, `is_grouping` and `add_digit` are shared by
//!   texts of calls and of numbers. `WrongByte` is a byte that may not stand there, and its place.
//! - `pulse_count`, `lists_of` and `in_order` are shared with the calls of bad dials (`xb_worn`).
#![tactic(auto)]

mod call;
mod call_line;
mod call_texts;
mod dialled_pulses;
mod fault;
pub mod laws;
mod line_rows;
mod order;
mod speed;
mod text_line;
mod told_field;
mod wrong_byte;

pub use call::Call;
pub use call_texts::{MOST_TEXT_BYTES, calls_of_text};
pub use dialled_pulses::pulse_count;
pub use fault::CallFault;
pub use line_rows::{in_order, lists_of, rows_of_calls};
pub use order::RowOrder;
pub use speed::{Speed, SpeedFault};
pub use text_line::{add_digit, is_grouping, is_passed_over, strip_carriage_return, without_mark};
pub use told_field::ToldField;
pub use wrong_byte::WrongByte;
