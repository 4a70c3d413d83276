// The program: its words and a page in, a status and sound out.
ghost use Rattle.xb_tone.specs.Program.{by_tone};

use crate::keying::play_asked;
use crate::request::Asked;
use crate::words::asked_of;
use std::alloc::Global;
use std::io::{Read, Write};
use xb_command::{Answer, Call, DONE, Files, Given, Source, Words, Work, tell_fault, text_source};

impl<'a> Work<'a> for Asked<'a> {
    ghost use Rattle.xb_tone.specs.Program.{by_tone};

    ghost rules = { by_tone };

    fn ask(_alloc: Global, call: &Call<'a>, words: &Words<'a>) -> Result<Asked<'a>, Answer<'a>> {
        match asked_of(call, words) {
            Ok(asked) => Ok(asked),
            Err(misfit) => Err(Answer::Unfit(misfit)),
        }
    }

    fn source(&self) -> Source<'a> {
        text_source(self.page)
    }

    fn run<F: Files, R: Read, W: Write, E: Write>(self, given: Given<'_, 'a, F, R, W, E>) -> u8 {
        let Given {
            alloc,
            input,
            out,
            err,
            program,
            ..
        } = given;
        if let Err(fault) = play_asked(alloc, self, input, out, err) {
            return tell_fault(alloc, err, program.name, fault);
        }
        DONE
    }
}
