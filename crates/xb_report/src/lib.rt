//! Writes what was heard, as text and as HTML.
//!
//! - `push_attempts` and `push_limits` write exactly the texts of the definitions in `specs/`: each heading,
//!   a line for each digit with its figures, what spoiled it and where, and how the attempt ended.
//! - A digit is told as ignored exactly where the outcome says that it was not taken: after as many digits as
//!   the number has, or after one that is spoiled. What spoils a digit is told of each, taken or not. A make
//!   that nothing was heard after is called a time-out exactly where the attempt was refused for it.
//! - The figures of a digit stand in columns, two blanks before each cell, whatever the width of a figure.
//!   `push_right` puts any text in such a cell, `push_number` a number, and `push_tenths` one in tenths.
//! - `push_head`, `push_list`, `push_section` and `push_tail` write exactly these parts of an HTML page. A
//!   section has one table, with the report's words, and below it the picture that was handed in. The list
//!   has a link to the section of each line that was handed in, in its order.
//!
//! Not said: that such a text is HTML, and what a browser makes of it.
#![tactic(auto)]

mod attempt;
mod cells;
mod digit;
mod html_attempt;
mod html_digit;
mod page;
mod report;
mod signs;
mod words;

pub use attempt::push_line;
pub use cells::{push_figure, push_number, push_right, push_tenths};
pub use page::{push_head, push_list, push_section, push_tail};
pub use report::{push_attempts, push_limits};
pub use signs::push_marked_fault;
pub use words::{
    fault_name, is_taken, is_timed_out, limit_of, push_fault, push_outcome, push_place,
};
