//! The reader of recordings of contacts, in pieces as they come: VCD, the CSV of sigrok and of Saleae, times
//! with levels, what gpiomon writes, raw samples, and sound. A `Reader` says what the wires that are asked
//! for do and when, and refuses what it does not understand.
//!
//! - `Reader::take_byte`, `take_samples` and `end` (`Takes`, `RestSays`): exactly what the whole recording
//!   says of these wires, in pieces of any length (`Says`). `xb_vcd` reads VCD; `xb_csv` reads the CSV forms,
//!   times with levels and what gpiomon writes; `xb_samples` reads raw samples, samples of 16 bits, and WAV.
//!   A piece of samples may also say up to when the levels hold.
//! - They refuse only what is refused whatever follows, and for the reason that they give (`Refuses`,
//!   `RefusesForm`, `RefusesEnd`; `IsRefused` for a whole recording), a text line of more than 65,536 bytes,
//!   and 2^64 ticks, or memory ran out. `text_line` and `line` then tell the line that is refused (`Places`).
//! - `laws::written_is_read`: what wires do, written in a form of text, is what the text says (`Written`).
//! - `laws::written_forms_are_told`: the beginning of such a text tells its form (`WrittenForms`).
//!   `laws::beginnings_are_told`: so do the first lines that other programs write.
//! - `told_format` (`form_told` in `Beginnings`): the form that the beginning tells, whatever follows.
//!   `why_untold`: why it tells none.
#![tactic(auto)]

mod beginning;
mod format;
pub mod laws;
mod reader;
mod wanted;

pub use beginning::{Told, told_format, why_untold};
pub use format::{Format, format_of, without_mark};
pub use reader::Reader;
pub use wanted::Wanted;
