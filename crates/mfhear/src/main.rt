//! The program: words and a deck in, a status and a report out.
#![tactic(auto)]

use std::process::ExitCode;
use xb_hear::{Asked, PROGRAM};
use xb_loop::Asked as Rows;
use xb_process::{serve, words_of_process};

/// Does what the words ask for, as `attend` says, with the streams of the process.
fn main(rt: HostRuntime) -> ExitCode {
    serve::<Asked<'_, Rows<'_>>>(&rt, &PROGRAM, &words_of_process(&rt))
}
