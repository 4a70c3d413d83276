//! The program: words and a deck in, a status and a page out.
#![tactic(auto)]

use std::io::{self, IsTerminal};
use std::process::ExitCode;
use xb_command::{Call, Pipe, SystemFiles, words_of_process};
use xb_office::{PROGRAM, attend_call};

/// Does what the words ask for, as `attend_call` says, with the streams of the process.
fn main(rt: HostRuntime) -> ExitCode {
    let (pipe, errors) = (Pipe::default(), rt.stderr());
    let (mut deck, mut page) = (rt.stdin(), pipe.output(io::writer(&rt)));
    let mut err = pipe.errors(io::writer(&errors));
    match words_of_process(&rt) {
        Ok(words) => {
            let call = Call {
                program: &PROGRAM,
                words: &words,
                is_typed: rt.stdin().is_terminal(),
                is_shown: rt.stdout().is_terminal(),
            };
            let files = SystemFiles { rt: &rt };
            let status = attend_call(
                &rt,
                rt.alloc(),
                &call,
                &files,
                &mut deck,
                &mut page,
                &mut err,
            );
            ExitCode::from(pipe.status(status))
        }
        Err(fault) => {
            let _ = eprintln!(rt; "mfbank: {fault}");
            ExitCode::FAILURE
        }
    }
}
