//! What the four stages make of rows (`specs/Images`). The pulse stage makes an image of the rows; the
//! register, translation and the sender each make one of the image before. The chain on one thread and that
//! on several are both proved to make these images; both are built on this crate, side by side.
//!
//! - `laws::images_are_tapes`: on each line the four images of the fed rows are the tape of that line's rows.
//!   The lemmas of `proofs/` say the same of rows that are closed in another way.
#![tactic(auto)]

pub mod laws;
