//! Writes the elements of a picture in SVG: what they look like, and nothing of what they say.
//!
//! - `push_drawing`: a drawing of `Element`s says just the words of these, in order (`drawing_text`). Words are escaped
//!   (`escaped`: each `&`, `<`, `>` and `"` as XML wants it, a cross and three dots by their numbers, and each other
//!   character as it is), and each element is closed. Nothing is said of where they stand.
//! - `push_frame` and `push_end`: the first element with white paper, and its end. `push_band`, `push_dashed_line`,
//!   `push_dot`, `push_text`: each puts exactly one element after the text. `push_text_start` and `push_text_end` are
//!   for words that are written between them.
//!
//! Places are in units of the picture, from the left and from the top; five units are one pixel. Each `Err` says
//! that memory ran out. Not said: that such a text is XML; characters that XML forbids, as most controls, are
//! written as they are.
#![tactic(auto)]

mod drawing;
mod escaped;
mod frame;
mod line;
mod look;
mod marks;
mod text;

pub use drawing::{Element, push_drawing};
pub use escaped::push_escaped;
pub use frame::{push_end, push_frame};
pub use line::{Step, push_dashed_line};
pub use look::{Anchor, Ink, Look};
pub use marks::{push_band, push_dot};
pub use text::{push_text, push_text_end, push_text_start};
