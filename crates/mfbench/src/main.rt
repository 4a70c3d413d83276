//! The program: words and a recording in, a status and the lines of digits out.
#![tactic(auto)]

use std::process::ExitCode;
use xb_bench::{Asked, PROGRAM};
use xb_process::{serve, words_of_process};

/// Does what the words ask for, as `attend` says, with the streams of the process.
fn main(rt: HostRuntime) -> ExitCode {
    serve::<Asked<'_>>(&rt, &PROGRAM, &words_of_process(&rt))
}
