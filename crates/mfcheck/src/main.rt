//! The program: words and a deck in, a status and what is wrong with the deck out.
#![tactic(auto)]

use std::process::ExitCode;
use xb_check::{PROGRAM, Request};
use xb_process::{serve, words_of_process};

/// Does what the words ask for, as `attend` says, with the streams of the process.
fn main(rt: HostRuntime) -> ExitCode {
    serve::<Request<'_>>(&rt, &PROGRAM, &words_of_process(&rt))
}
