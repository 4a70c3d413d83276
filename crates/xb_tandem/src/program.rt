// The program: its words, a file and keys in, a status and a page out.
ghost use Rattle.std.specs.Prelude.{◌≡◌, IfOk, string_bytes};
ghost use Rattle.xb_tandem.specs.Program.{TellsNote, by_tandem, note_of};

use crate::fault::NoteFault;
use crate::relaying::relay;
use crate::request::{Asked, Form};
use crate::words::{asked_by, misfit_of, options_of};
use std::alloc::{AllocError, Global};
use std::io::{Read, Write};
use xb_command::{
    Answer, Call, DONE, Files, Given, Program, Source, Words, Work, file_source, tell_fault,
};
use xb_text::write_whole;

// What is told of calls that are not in what was written.
fn note_of(alloc: Global, form: Form, left: usize) -> Result<String, AllocError>
    ensures { IfOk result (λ note. string_bytes note ≡ note_of form left) }
{
    if left == 0 {
        return Ok(String::new(alloc));
    }
    match form {
        Form::Rows => {
            format!(in alloc;
                "mftandem: calls that are keyed or refused, which the page has: {left}\n"
            )
        }
        Form::Page | Form::Json => {
            format!(in alloc; "mftandem: calls by dial pulses, which --rows prints: {left}\n")
        }
    }
}

// Tells how many calls are not in what was written, if there are any, and returns the status of the process.
fn tell_note<E: Write>(
    alloc: Global,
    err: &mut E,
    program: &Program<'_>,
    form: Form,
    left: usize,
) -> u8
    ensures { TellsNote program.now form left (E.contents err.old) (E.contents err.new) result }
{
    let note = match note_of(alloc, form, left) {
        Ok(note) => note,
        Err(_) => return tell_fault(alloc, err, program.name, NoteFault::NoMemory),
    };
    if note.is_empty() || write_whole(err, note.as_bytes()).is_ok() {
        return DONE;
    }
    tell_fault(alloc, err, program.name, NoteFault::Write)
}

impl<'a> Work<'a> for Asked<'a> {
    ghost use Rattle.xb_tandem.specs.Program.{by_tandem};

    ghost rules = { by_tandem };

    fn ask(_alloc: Global, _call: &Call<'a>, words: &Words<'a>) -> Result<Asked<'a>, Answer<'a>> {
        let options = options_of(words);
        match asked_by(options) {
            Some(asked) => Ok(asked),
            None => Err(Answer::Unfit(misfit_of(options))),
        }
    }

    fn source(&self) -> Source<'a> {
        file_source(self.keys)
    }

    fn run<F: Files, R: Read, W: Write, E: Write>(self, given: Given<'_, 'a, F, R, W, E>) -> u8 {
        let Given {
            alloc,
            files,
            input,
            out,
            err,
            program,
        } = given;
        let left = match relay(alloc, files, self.table, self.request, input, out) {
            Ok(left) => left,
            Err(fault) => return tell_fault(alloc, err, program.name, fault),
        };
        tell_note(alloc, err, program, self.request.form, left)
    }
}
