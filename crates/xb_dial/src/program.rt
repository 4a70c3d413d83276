// The program: its words and calls in, a status and rows out.
ghost use Rattle.xb_dial.specs.Program.{by_dial};

use crate::dialling::dial;
use crate::request::Asked;
use crate::words::asked_of;
use std::alloc::Global;
use std::io::{Read, Write};
use xb_command::{Answer, Call, DONE, Files, Given, Source, Words, Work, tell_fault, text_source};

impl<'a> Work<'a> for Asked<'a> {
    ghost use Rattle.xb_dial.specs.Program.{by_dial};

    ghost rules = { by_dial };

    #[tactic(auto, using(crate::proofs::Unfit::nothing_is_wrong))]
    fn ask(alloc: Global, _call: &Call<'a>, words: &Words<'a>) -> Result<Asked<'a>, Answer<'a>> {
        asked_of(alloc, words)
    }

    fn source(&self) -> Source<'a> {
        text_source(self.calls)
    }

    fn run<F: Files, R: Read, W: Write, E: Write>(self, given: Given<'_, 'a, F, R, W, E>) -> u8 {
        let Given {
            alloc,
            input,
            out,
            err,
            program,
            ..
        } = given;
        match dial(alloc, &self.request, input, out) {
            Ok(()) => DONE,
            Err(fault) => tell_fault(alloc, err, program.name, fault),
        }
    }
}
