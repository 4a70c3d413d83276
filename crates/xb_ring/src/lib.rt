//! The rings between the stages of the chain, and the posts that pass items through them. This crate puts the
//! names of `xb_flow`, `xb_station` and `xb_branches` in one place, and adds the laws of what they send.
//!
//! - `laws::end_closes`: an End closes the image. `laws::sent_so_far`: what was sent so far is the beginning
//!   of all. `laws::prefix_of_image`: images of prefixes are prefixes.
//! - `laws::merged_is_whole`, `laws::merged_images`: merging what the dealt items give is what all items
//!   give. `laws::prefix_of_merged`: merging prefixes gives a prefix.
#![tactic(auto)]

pub mod laws;

pub use xb_branches::{Deal, Gather, MOST_BRANCHES};
pub use xb_flow::{
    Ending, Flow, GREATEST_CAPACITY, Gate, NoGate, Pause, Post, Sends, Turn, drained, link,
    look_at_both,
};
pub use xb_model::{LineStage, MOST_OUTPUTS, OUTPUT_ROOM, image_of, send};
pub use xb_station::Station;
