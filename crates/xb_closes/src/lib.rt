//! The rows that are heard, and the closes that lack: of each line its rows up to its close, and a close
//! after the last row of all where it has none.
//!
//! - `fed_rows`: exactly these rows and closes of a whole list. `laws::closed_once`: so the record of each
//!   line that has rows is closed once.
//! - `LineUses`: the same, one row after another. After any rows, what is left to be fed of further rows is
//!   what those fed of the whole list lack; `close_next` gives the closes, the lines ascending. Rows that a
//!   fault stopped get none.
#![tactic(auto)]

mod fed;
pub mod laws;
mod line_use;
mod line_uses;

pub use fed::fed_rows;
pub use line_use::LineUse;
pub use line_uses::LineUses;
