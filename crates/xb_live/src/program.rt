// The program: its words and a deck in, a status and entries or samples out.
ghost use Rattle.std.specs.Prelude.{◌≡◌, IfOk, string_bytes};
ghost use Rattle.xb_command.specs.Programs.{streams};
ghost use Rattle.xb_command.specs.Works.{Runs};
ghost use Rattle.xb_live.specs.Program.{Delivers, Fails, TellsNote, WritesAsked, by_live, note_line, note_of, sounding_line};

use crate::deck_entries::run_deck;
use crate::deck_sound::sound_deck;
use crate::fault::{LiveFault, NoteFault};
use crate::request::{Asked, Request};
use crate::words::asked_of;
use std::alloc::{AllocError, Global};
use std::io::{Read, Write};
use xb_command::{
    Answer, Call, DONE, Files, Given, Program, Source, Words, Work, tell_fault, text_source,
};
use xb_text::write_whole;

// Writes what is asked of a deck, and tells how many keyings were given up.
fn deliver<R: Read, W: Write>(
    alloc: Global,
    request: Request,
    deck: &mut R,
    out: &mut W,
) -> Result<u128, LiveFault>
    ensures { Delivers request result (R.remaining deck.old) (W.contents out.old) (W.contents out.new) }
{
    match request {
        Request::Entries(form) => match run_deck(alloc, form, deck, out) {
            Ok(()) => Ok(0),
            Err(fault) => Err(fault),
        },
        Request::Sound(line, cadence) => sound_deck(alloc, line, None, cadence, deck, out),
        Request::StartedSound(line, start, cadence) => {
            sound_deck(alloc, line, Some(start), cadence, deck, out)
        }
    }
}

// The line that sounds, if one does.
fn sounding_line(request: &Request) -> Option<u16>
    ensures { result ≡ sounding_line request.now }
{
    match request {
        Request::Entries(_) => None,
        Request::Sound(line, _) | Request::StartedSound(line, _, _) => Some(line.get()),
    }
}

// The line of a note.
fn note_line(alloc: Global, line: u16, given_up: u128) -> Result<String, AllocError>
    ensures { IfOk result (λ note. string_bytes note ≡ note_line line given_up) }
{
    format!(in alloc; "mflive: keyings of line {line} given up for want of a start: {given_up}\n")
}

// What is told of keyings that were given up.
fn note_of(alloc: Global, line: Option<u16>, given_up: u128) -> Result<String, AllocError>
    ensures { IfOk result (λ note. string_bytes note ≡ note_of line given_up) }
{
    let Some(number) = line else {
        return Ok(String::new(alloc));
    };
    if given_up == 0 {
        return Ok(String::new(alloc));
    }
    note_line(alloc, number, given_up)
}

// Tells how many keyings were given up, if any were, and returns the status of the process.
fn tell_note<E: Write>(
    alloc: Global,
    err: &mut E,
    program: &str,
    line: Option<u16>,
    given_up: u128,
) -> u8
    ensures { TellsNote program.now line given_up (E.contents err.old) (E.contents err.new) result }
{
    let note = match note_of(alloc, line, given_up) {
        Ok(note) => note,
        Err(_) => return tell_fault(alloc, err, program, NoteFault::NoMemory),
    };
    if note.is_empty() || write_whole(err, note.as_bytes()).is_ok() {
        return DONE;
    }
    tell_fault(alloc, err, program, NoteFault::Write)
}

// Does what is asked of a deck, and returns the status of the process.
fn answer<R: Read, W: Write, E: Write>(
    alloc: Global,
    request: Request,
    program: &Program<'_>,
    deck: &mut R,
    out: &mut W,
    err: &mut E,
) -> u8
    ensures { Runs (WritesAsked request) (Fails request program.now)
        (streams (R.remaining deck.old) (W.contents out.old) (E.contents err.old))
        (streams (R.remaining deck.new) (W.contents out.new) (E.contents err.new)) result }
{
    let line = sounding_line(&request);
    match deliver(alloc, request, deck, out) {
        Ok(given_up) => tell_note(alloc, err, program.name, line, given_up),
        Err(fault) => tell_fault(alloc, err, program.name, fault),
    }
}

impl<'a> Work<'a> for Asked<'a> {
    ghost use Rattle.xb_live.specs.Program.{by_live};

    ghost rules = { by_live };

    fn ask(_alloc: Global, _call: &Call<'a>, words: &Words<'a>) -> Result<Asked<'a>, Answer<'a>> {
        match asked_of(words) {
            Ok(asked) => Ok(asked),
            Err(misfit) => Err(Answer::Unfit(misfit)),
        }
    }

    fn source(&self) -> Source<'a> {
        text_source(self.deck)
    }

    fn run<F: Files, R: Read, W: Write, E: Write>(self, given: Given<'_, 'a, F, R, W, E>) -> u8 {
        let Given {
            alloc,
            program,
            input,
            out,
            err,
            ..
        } = given;
        answer(alloc, self.request, program, input, out, err)
    }
}
