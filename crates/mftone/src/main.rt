//! The program: words and a page in, a status and the sound of its calls out.
#![tactic(auto)]

use std::process::ExitCode;
use xb_process::{serve, words_of_process};
use xb_tone::{Asked, PROGRAM};

/// Does what the words ask for, as `attend` says, with the streams of the process.
fn main(rt: HostRuntime) -> ExitCode {
    serve::<Asked<'_>>(&rt, &PROGRAM, &words_of_process(&rt))
}
