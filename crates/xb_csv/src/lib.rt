//! Readers of recordings of contacts whose lines are cells or words: tables of levels, which are the CSV of
//! sigrok and of Saleae; times with levels; and what gpiomon writes.
//!
//! - `Columns::take_line` and `Columns::end` (`table_line_says`, `table_says`): exactly what a line of a
//!   table, and its last line with its end, say of the wires that are asked for, or why they are refused
//!   (`IsRefusedBy`), unless memory ran out.
//! - `Gpiomon::take_line` and `Gpiomon::end` (`gpiomon_line_says`, `gpiomon_says`): the same for what gpiomon
//!   writes.
//! - `laws::written_edges_are_read` and `written_rows_are_read` (`Written`): edges as gpiomon writes them,
//!   and rows of times and levels, are read back as they are.
//! - `laws::sigrok_samples_are_read`, `sigrok_times_are_read` and `saleae_is_read` (`WrittenTables`): tables
//!   as sigrok and Saleae Logic write them are read back as they are, whichever of their channels are asked
//!   for.
//! - `laws::sigrok_cut_times_are_read`: times that sigrok cuts something off are read as exactly their
//!   samples.
//! - `names_wire` (`Gpiomons`): the names of a wire, by what gpiomon writes of it.
//! - `trimmed` and `cell_at` (`Cells`): the cells of a line, without the blanks around them.
//! - `nanoseconds_of` (`Seconds`): a time in seconds to the nanosecond. It has a sign where it is below 0,
//!   and may have an exponent. `laws::exponents_are_read`: what an exponent comes to.
#![tactic(auto)]

mod cells;
mod columns;
mod exponents;
mod gpiomon;
pub mod laws;
mod preamble;
mod row_times;
mod sample_periods;
mod seconds;
mod wires;

pub use cells::{cell_at, trimmed};
pub use columns::{Columns, TableForm};
pub use gpiomon::{Gpiomon, is_of_gpiomon, wire_of_edge};
pub use preamble::is_seconds;
pub use seconds::nanoseconds_of;
