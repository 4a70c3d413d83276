//! The register stage: the signals of each line in, dialled numbers and refusals out, for every plan.
//!
//! - `Register::new`: for the signals of a record, the outcome of each attempt, one each, in order.
//!   Whatever the signals are, at most one outcome for each seizure, and none before the first.
//! - `Register::take` is `step` for a caller without lists: one signal in, its outcome out, if it brings
//!   one.
//! - `RegisterState` comes back from its plain values (`laws::states_come_back`).
#![tactic(auto)]

pub mod laws;
mod plain;
mod register;
mod state;
mod step;
mod stored;

pub use plain::PlainRegister;
pub use register::Register;
pub use state::RegisterState;
