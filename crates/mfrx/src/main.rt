//! The program: words, a sound and the file of a page in, a status and what is heard out.
#![tactic(auto)]

use std::io::{self, BufReader, IsTerminal};
use std::process::ExitCode;
use xb_command::{Call, Pipe, SystemFiles, attend, words_of_process};
use xb_rx::{Asked, PROGRAM};

// Does what the words ask for, and gives the status of the process.
fn run(rt: &HostRuntime) -> io::Result<u8> {
    let words = words_of_process(rt)?;
    let mut input = BufReader::new(rt.alloc(), rt.stdin())?;
    let (pipe, errors) = (Pipe::default(), rt.stderr());
    let (mut out, mut err) = (
        pipe.output(io::writer(rt)),
        pipe.errors(io::writer(&errors)),
    );
    let call = Call {
        program: &PROGRAM,
        words: &words,
        is_typed: rt.stdin().is_terminal(),
        is_shown: rt.stdout().is_terminal(),
    };
    let files = SystemFiles { rt };
    let status = attend::<Asked<'_>, _, _, _, _>(
        rt.alloc(),
        &call,
        &files,
        &mut input,
        &mut out,
        &mut err,
    );
    Ok(pipe.status(status))
}

/// Does what the words ask for, as `attend` says, with the streams of the process.
fn main(rt: HostRuntime) -> ExitCode {
    match run(&rt) {
        Ok(status) => ExitCode::from(status),
        Err(fault) => {
            let _ = eprintln!(rt; "mfrx: {fault}");
            ExitCode::FAILURE
        }
    }
}
