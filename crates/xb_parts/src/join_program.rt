// A join: its words and files in, a status and a page out.
ghost use Rattle.std.specs.Prelude.{◌≡◌, true};
ghost use Rattle.clap.specs.Faults.{is_simple_and_free};
ghost use Rattle.xb_command.specs.Programs.{streams};
ghost use Rattle.xb_command.specs.Tables.{command_by};
ghost use Rattle.xb_command.specs.Works.{AttendsBy};
ghost use Rattle.xb_parts.specs.JoinProgram.{by_join};

use crate::join_words::{JoinRequest, misfit_of, request_of};
use crate::joining::join;
use std::alloc::Global;
use std::io::{Read, Write};
use xb_command::{Answer, Call, DONE, Files, Given, Source, Words, Work, tell_fault};

impl<'a> Work<'a> for JoinRequest<'a> {
    ghost use Rattle.xb_parts.specs.JoinProgram.{by_join};

    ghost rules = { by_join };

    fn ask(
        alloc: Global,
        _call: &Call<'a>,
        words: &Words<'a>,
    ) -> Result<JoinRequest<'a>, Answer<'a>> {
        if let Some(misfit) = misfit_of(words) {
            return Err(Answer::Unfit(misfit));
        }
        match request_of(alloc, words) {
            Ok(request) => Ok(request),
            Err(_) => Err(Answer::NoMemory),
        }
    }

    fn source(&self) -> Source<'a> {
        Source::Input
    }

    fn run<F: Files, R: Read, W: Write, E: Write>(self, given: Given<'_, 'a, F, R, W, E>) -> u8 {
        let Given {
            alloc,
            files,
            out,
            err,
            program,
            ..
        } = given;
        match join(alloc, files, &self, out) {
            Ok(()) => DONE,
            Err(fault) => tell_fault(alloc, err, program.name, fault),
        }
    }
}

/// Reads the words of the command line, and by them writes the page of the whole, as `join` does. It does not read the
/// input, and returns the status of the process, as `attend` of `xb_command` says.
pub fn attend_join<F: Files, R: Read, W: Write, E: Write>(
    alloc: Global,
    call: &Call<'_>,
    files: &F,
    input: &mut R,
    out: &mut W,
    err: &mut E,
) -> u8
    requires { is_simple_and_free (command_by call.now.program.now) ≡ true }
    ensures { AttendsBy by_join call.now (F.bytes files.now)
        (streams (R.remaining input.old) (W.contents out.old) (E.contents err.old))
        (streams (R.remaining input.new) (W.contents out.new) (E.contents err.new)) result }
{
    xb_command::attend::<JoinRequest<'_>, F, R, W, E>(alloc, call, files, input, out, err)
}
