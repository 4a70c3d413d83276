//! The program: words, the file of a table and numbers in, a status and what is done with each number out.
#![tactic(auto)]

use std::process::ExitCode;
use xb_process::{serve, words_of_process};
use xb_route::{PROGRAM, Request};

/// Does what the words ask for, as `attend` says, with the streams of the process.
fn main(rt: HostRuntime) -> ExitCode {
    serve::<Request<'_>>(&rt, &PROGRAM, &words_of_process(&rt))
}
