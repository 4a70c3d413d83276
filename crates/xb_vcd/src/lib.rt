//! The reader of recordings of contacts that are value change dumps (VCD).
//!
//! - `Vcd::take_line` (`vcd_line_says`): exactly what the words of a line say of the wires that are asked
//!   for, or why they are refused: the reason of the first refused word (`IsRefusedBy`), unless memory ran
//!   out. `Vcd::end` is the last line, and the end.
//! - A text is a VCD where each of its words may stand where it stands, and it ends among its changes
//!   (`vcd_says`; `VcdTexts` has its lines and words).
//! - `next_word` cuts a text as `Vcd::take_line` does, word by word (`words_of`).
//! - `laws::the_first_missing_is_told` (`MissingWires`): where a wire that is asked for is not declared, the first such wire
//!   is told.
//! - `laws::written_is_read` (`WrittenVcd`): what up to 94 wires do, written as a VCD, is read back as it is.
#![tactic(auto)]

mod blanks;
mod declaration;
pub mod laws;
mod place;
mod timescale;
mod vcd;
mod word;

pub use blanks::next_word;
pub use vcd::Vcd;
pub use word::{Word, code_of, word_of};
