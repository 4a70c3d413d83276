//! The program: words and calls in, a status and the loop rows that dial them out.
#![tactic(auto)]

use std::process::ExitCode;
use xb_dial::{Asked, PROGRAM};
use xb_process::{serve, words_of_process};

/// Does what the words ask for, as `attend` says, with the streams of the process.
fn main(rt: HostRuntime) -> ExitCode {
    serve::<Asked<'_>>(&rt, &PROGRAM, &words_of_process(&rt))
}
