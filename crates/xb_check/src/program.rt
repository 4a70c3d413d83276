// The program: its words and a deck in, a status and what is wrong with the deck out.
ghost use Rattle.std.specs.Prelude.{◌≡◌, IfOk, string_bytes};
ghost use Rattle.xb_command.specs.FaultTexts.{one_line};
ghost use Rattle.xb_check.specs.Named.{Reports};
ghost use Rattle.xb_check.specs.Program.{by_check};

use crate::checking::check;
use crate::fault::CheckFault;
use crate::words::{Request, misfit_of, request_of};
use std::alloc::{AllocError, Global};
use std::io::{Read, Write};
use xb_command::{
    Answer, Call, DONE, Files, Given, InOneLine, Source, Words, Work, tell_fault, text_source,
};

// A name in one line.
fn in_one_line(alloc: Global, name: &str) -> Result<String, AllocError>
    ensures { IfOk result (λ line. string_bytes line ≡ one_line name.now) }
{
    format!(in alloc; "{}", InOneLine(name))
}

// Checks the deck that is asked for, under the name that is told of it.
fn check_named<R: Read, W: Write>(
    alloc: Global,
    request: Request<'_>,
    deck: &mut R,
    out: &mut W,
) -> Result<(), CheckFault>
    ensures { Reports request.entry (R.remaining deck.old) result (W.contents out.old) (W.contents out.new) }
{
    match in_one_line(alloc, request.name) {
        Ok(name) => check(alloc, &name, request.all, deck, out),
        Err(_) => Err(CheckFault::NoMemory),
    }
}

impl<'a> Work<'a> for Request<'a> {
    ghost use Rattle.xb_check.specs.Program.{by_check};

    ghost rules = { by_check };

    fn ask(_alloc: Global, _call: &Call<'a>, words: &Words<'a>) -> Result<Request<'a>, Answer<'a>> {
        match misfit_of(words) {
            Some(misfit) => Err(Answer::Unfit(misfit)),
            None => Ok(request_of(words)),
        }
    }

    fn source(&self) -> Source<'a> {
        text_source(self.deck)
    }

    fn run<F: Files, R: Read, W: Write, E: Write>(self, given: Given<'_, 'a, F, R, W, E>) -> u8 {
        let Given {
            alloc,
            input,
            out,
            err,
            program,
            ..
        } = given;
        if let Err(fault) = check_named(alloc, self, input, out) {
            return tell_fault(alloc, err, program.name, fault);
        }
        DONE
    }
}
