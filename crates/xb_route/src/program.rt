// The program: its words, a file and numbers in, a status and lines out.
ghost use Rattle.xb_route.specs.Program.{by_route};

use crate::routing::route;
use crate::words::{Request, request_of};
use std::alloc::Global;
use std::io::{Read, Write};
use xb_command::{Answer, Call, DONE, Files, Given, Source, Words, Work, tell_fault};

impl<'a> Work<'a> for Request<'a> {
    ghost use Rattle.xb_route.specs.Program.{by_route};

    ghost rules = { by_route };

    #[tactic(auto, using(crate::proofs::Asked::it_asks, crate::proofs::Asked::nothing_is_wrong))]
    fn ask(alloc: Global, _call: &Call<'a>, words: &Words<'a>) -> Result<Request<'a>, Answer<'a>> {
        request_of(alloc, words)
    }

    fn source(&self) -> Source<'a> {
        Source::Input
    }

    fn run<F: Files, R: Read, W: Write, E: Write>(self, given: Given<'_, 'a, F, R, W, E>) -> u8 {
        let Given {
            alloc,
            files,
            input,
            out,
            err,
            program,
        } = given;
        match route(alloc, files, &self, input, out) {
            Ok(()) => DONE,
            Err(fault) => tell_fault(alloc, err, program.name, fault),
        }
    }
}
