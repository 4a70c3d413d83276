//! The program: words, and by the first of them a deck in a file split into decks in a folder, or the pages of
//! these joined to one; a status out.
#![tactic(auto)]

use std::io::{self, IsTerminal};
use std::process::ExitCode;
use xb_command::{Call, Pipe, SystemFiles, words_of_process};
use xb_parts::{JOIN_PROGRAM, PROGRAM, SPLIT_PROGRAM, attend};

/// Does what the words ask for, as `attend` says, with the files and the streams of the process.
fn main(rt: HostRuntime) -> ExitCode {
    let (pipe, errors) = (Pipe::default(), rt.stderr());
    let (mut input, mut out) = (rt.stdin(), pipe.output(io::writer(&rt)));
    let mut err = pipe.errors(io::writer(&errors));
    match words_of_process(&rt) {
        Ok(words) => {
            let call = Call {
                program: &PROGRAM,
                words: &words,
                is_typed: rt.stdin().is_terminal(),
                is_shown: rt.stdout().is_terminal(),
            };
            let (mut folders, files) = (SystemFiles { rt: &rt }, SystemFiles { rt: &rt });
            let status = attend(
                rt.alloc(),
                &call,
                &SPLIT_PROGRAM,
                &JOIN_PROGRAM,
                &mut folders,
                &files,
                &mut input,
                &mut out,
                &mut err,
            );
            ExitCode::from(pipe.status(status))
        }
        Err(fault) => {
            let _ = eprintln!(rt; "mfoffice: {fault}");
            ExitCode::FAILURE
        }
    }
}
