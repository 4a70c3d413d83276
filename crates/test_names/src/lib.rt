//! Calls each name that users of the chain have had from the beginning, by the path by which they have it:
//! those of `xb_model`, `xb_ring`, the four stages, `xb_bank` and `xb_office`. Each call is made once, with
//! its signature written out around it. Each kind of a fault, a mark or a post stands in a list. So this
//! crate notices a name that falls out of its crate, or a signature that becomes another one.
//!
//! Nothing is run, and nothing depends on this crate: that it is read and proved is the test.
#![tactic(auto)]

pub mod bank;
pub mod branches;
pub mod model;
pub mod office;
pub mod rings;
pub mod stages;
