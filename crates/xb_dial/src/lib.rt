//! The program `mfdial` without its process: it reads calls and writes what a dial sends of them, as loop rows or as a
//! dump of its contact.
//!
//! - `dial`, for readers and writers whose bytes a contract can name: on `Ok` the writer got exactly the text
//!   of the rows that dial the calls of the text, by a dial that is worn and has faults, or the dump of them.
//!   By every plan and all lawful limits the outcomes of each line are those of the pulses that were sent
//!   (`outcomes_after` of `xb_worn`). A dial without wear and faults sends the rows of `xb_calls`: by the plan, if
//!   one is asked for, exactly the numbers of each line are heard by the standard limits, and keyed.
//! - On `Write` the writer got the beginning, on any other fault nothing, and the fault is so of the calls and
//!   the request (`IsFaultOfCalls`). Unless any speed is taken, the speed is judged before the calls: every
//!   result but a fault of the speed comes only of one that fits the standard limits.
//! - `attend`: `AttendsBy` of this, beginning at the words as they are typed.
//!
//! The loop contact of a line as a logic analyser records it: rows of makes and breaks written as a value change dump,
//! with the bounces that a seed draws.
//!
//! - The dump (`trace_text`) is exactly the text of the contact's changes. `LongDump` comes only where the recording
//!   would end at 2^64 - 1 us or later. Beside the rows their runs are held, and one change of text at a time.
//! - The contact is open for a second, does what the rows say, and is open for a second more (`runs_in`): rows of one
//!   contact that follow each other are one run, and a row of 0 ms is none.
//! - `Bouncing`: each run but the first begins with up to four bounces, which a seed draws (`Drawn`). They end within
//!   its first `us` us, and a run that does not last longer has none. Its end stays where it is.
//! - `laws::traces_are_read`: the text is read back as these changes, whatever the rows are.
//! - `laws::traces_keep_runs`: the bounces disturb the runs of the rows, and take no time of them.
//! - `laws::traces_settle`: settled, nothing is left of the bounces. The runs are those of the rows, in us and in ms.
//! - `laws::worked_trace`: a trace that was worked out by another program.
//!
//! Not said: how much memory a run takes.
#![tactic(auto)]

mod bounced_run;
mod bouncing;
mod contact_runs;
mod dialling;
mod fault;
mod fault_words;
pub mod laws;
mod level_change;
mod program;
mod request;
mod trace;
mod trace_fault;
mod words;

pub use bouncing::Bouncing;
pub use dialling::dial;
pub use fault::DialFault;
pub use request::{Asked, Form, Manner, Request};
pub use words::PROGRAM;
