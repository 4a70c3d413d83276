//! What several programs write as JSON: objects, the digits and the keys of a call in them, and text lines.
//!
//! - `text_of_digits`: digits as one string; `keys_of`: a keying as the names of its keys, as the page has
//!   them.
//! - `object_of`: the object of a list of members, each a name and a `Member`.
//! - `line_of`: a value as one text line of JSON. Without a float in it the line is exactly the value's
//!   compact text, which is read back to the value.
#![tactic(auto)]

mod keys;
mod line;
mod object;

pub use keys::{keys_of, text_of_digits};
pub use line::line_of;
pub use object::{Member, object_of};
