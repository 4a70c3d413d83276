// A process that hands its words and its streams to its program.
ghost use Rattle.std.specs.Prelude.{◌≡◌, true, IfOk, OnErr};
ghost use Rattle.std.specs.Process.{exit_status};
ghost use Rattle.clap.specs.Faults.{is_simple_and_free};
ghost use Rattle.xb_command.specs.Tables.{command_by};
ghost use Rattle.xb_process.specs.Processes.{Attends, EndsWith, IsCallBy, Serves};

use std::io::{self, IsTerminal, Printer, Stderr};
use std::process::ExitCode;
use xb_command::{Call, Errors, FAULT, Output, Pipe, Program, SystemFiles, Work, attend};

/// Hands a call by these words and the streams that are written to what a program does, and ends the process with the
/// status that it returns, or with `READER_GONE` where the reader of the output went away. Without words it is not
/// called: the stream of errors gets one line, which says why, and the status is `FAULT`.
pub fn serve_by<'a, F>(
    rt: &HostRuntime,
    program: &'a Program<'a>,
    words: &'a io::Result<Vec<String>>,
    attend: F,
) -> ExitCode
where
    F: FnOnce(
        &Call<'a>,
        &mut Output<'_, Printer<'_, HostRuntime>>,
        &mut Errors<'_, Printer<'_, Stderr>>,
    ) -> u8,
    requires { (call : _) (out : _) (err : _) → call.now.program.now ≡ program.now → F.pre attend call out err }
    ensures served { IfOk words.now (λ these. (call : _) × IsCallBy program.now these.items call.now
        × (out : _) × (err : _) × (status : _) × (out_after : _) × (err_after : _)
        × F.post attend call out err status out_after err_after × EndsWith status (exit_status result)) }
    ensures failed { OnErr words.now (exit_status result ≡ FAULT) }
{
    match words {
        Ok(words) => {
            let (pipe, errors) = (Pipe::default(), rt.stderr());
            let call = Call {
                program,
                words,
                is_typed: rt.stdin().is_terminal(),
                is_shown: rt.stdout().is_terminal(),
            };
            let (mut out, mut err) = (
                pipe.output(io::writer(rt)),
                pipe.errors(io::writer(&errors)),
            );
            let status = attend(&call, &mut out, &mut err);
            ExitCode::from(pipe.status(status))
        }
        Err(fault) => {
            let _ = eprintln!(rt; "{}: {fault}", program.name);
            ExitCode::from(FAULT)
        }
    }
}

/// The same by what a program does (`Work`), with standard input and the files of the system.
pub fn serve<'a, Q: Work<'a>>(
    rt: &HostRuntime,
    program: &'a Program<'a>,
    words: &'a io::Result<Vec<String>>,
) -> ExitCode
    requires { is_simple_and_free (command_by program.now) ≡ true }
    ensures served { IfOk words.now (λ these. Serves Q.rules program.now these.items (exit_status result)) }
    ensures failed { OnErr words.now (exit_status result ≡ FAULT) }
{
    serve_by(
        rt,
        program,
        words,
        |call, out, err| -> u8
            requires { is_simple_and_free (command_by call.now.program.now) ≡ true }
            ensures { Attends Q.rules call.now result }
        {
            let (alloc, files) = (rt.alloc(), SystemFiles { rt });
            attend::<Q, _, _, _, _>(alloc, call, &files, &mut rt.stdin(), out, err)
        },
    )
}
