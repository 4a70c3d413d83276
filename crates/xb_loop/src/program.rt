// The program: its words and a recording in, a status and rows out.
ghost use Rattle.std.specs.Prelude.{◌≡◌, ◌==◌, false, IfErr, IfOk, IfSome, OnOk, length, map, string_bytes};
ghost use Rattle.xb_command.specs.Programs.{streams};
ghost use Rattle.xb_command.specs.Works.{Runs};
ghost use Rattle.xb_loop.specs.Program.{DeliversWires, FailsToList, FailsToPrint, HadFault, IsFaultOfRecording, IsListed, PrintsDeck, TellsMore, TellsOfBounces, TellsWires, WritesListing, WritesRows, WritesWires, by_loop};

use crate::common::Common;
use crate::contact::Contact;
use crate::fault::LoopFault;
use crate::listed::listing_text;
use crate::table::beginning_of;
use crate::words::{Asked, asked_of};
use crate::{Listing, list_wires};
use std::alloc::Global;
use std::io::{Read, Write};
use xb_command::{
    Answer, Call, DONE, Files, Given, Program, Source, Words, Work, file_source, tell_fault,
};
use xb_feed::{AskedLine, RecordingFault, Request, listen, missing_name};
use xb_text::write_whole;

// The line before the rows.
const HEADER: &[u8] = b"line,state,ms\n";

// What is told where a recording has more wires.
const MORE: &[u8] = b"mfloop: the recording has more wires than these 32\n";

// The fault of a recording; where it lacks a wire, with the first name that is asked for and that it lacks.
fn fault_of_recording<'a>(fault: RecordingFault, names: &[&'a str]) -> LoopFault<'a>
    ensures { IsFaultOfRecording (map (λ name. name.now) names.now) fault result }
{
    match missing_name(&fault, names) {
        Some(name) => LoopFault::NoWire(fault, name),
        None => LoopFault::Recording(fault),
    }
}

// Whether no line is asked for.
fn is_none_asked(lines: &[AskedLine]) -> bool
    ensures { result ≡ (length lines.now == 0) }
{
    lines.is_empty()
}

// Why nothing is written where no line is asked for: it tells the wires of the recording.
fn no_line<'a, R: Read>(
    alloc: Global,
    request: &Request<'a, Common>,
    recording: &mut R,
) -> LoopFault<'a>
    ensures listed { IsListed result }
    ensures wires { IfSome (R.remaining recording.old) (λ text. TellsWires request.now text result) }
{
    let sound = (request.wanted.rate, request.wanted.threshold);
    match list_wires(alloc, request.format, sound, recording) {
        Ok(listing) => LoopFault::NoLine(listing),
        Err(fault) => LoopFault::Unlisted(fault),
    }
}

// Writes the rows that are asked for, after a route table, if one is; its release limit is that of the lines.
fn print<'a, F: Files, R: Read, W: Write>(
    alloc: Global,
    files: &F,
    mut request: Request<'a, Common>,
    recording: &mut R,
    out: &mut W,
) -> Result<String, LoopFault<'a>>
    ensures some { OnOk result ((length request.entry.lines.items == 0) ≡ false) }
    ensures prints { IfOk result (λ told. PrintsDeck (F.bytes files.now) request.entry (string_bytes told)
        (R.remaining recording.old) (W.contents out.old) (W.contents out.new)) }
    ensures fault { IfErr result (λ fault. FailsToPrint (F.bytes files.now) request.entry fault
        (R.remaining recording.old) (W.contents out.old) (W.contents out.new)) }
{
    if is_none_asked(&request.lines) {
        return Err(no_line(alloc, &request, recording));
    }
    let (before, release_ms) = beginning_of(alloc, files, request.table)?;
    request.common.release_ms = release_ms;
    match listen::<Common, Contact, R, W>(alloc, &request, &before, HEADER, recording, out) {
        Ok(told) => Ok(told),
        Err(fault) => Err(fault_of_recording(fault, &request.wanted.wires)),
    }
}

// Tells of the bounces, if there is anything to tell, and returns the status of the process.
fn tell_bounces<E: Write>(alloc: Global, err: &mut E, program: &str, told: &str) -> u8
    ensures { TellsOfBounces program.now told.now (E.contents err.old) (E.contents err.new) result }
{
    if told.is_empty() || write_whole(err, told.as_bytes()).is_ok() {
        return DONE;
    }
    tell_fault(alloc, err, program, LoopFault::Tell)
}

// Writes the rows that are asked for, tells of the bounces, and returns the status of the process.
fn answer_rows<F: Files, R: Read, W: Write, E: Write>(
    alloc: Global,
    files: &F,
    request: Request<'_, Common>,
    program: &Program<'_>,
    recording: &mut R,
    out: &mut W,
    err: &mut E,
) -> u8
    ensures { Runs (WritesRows (F.bytes files.now) request.entry)
        (HadFault program.now.name.now (F.bytes files.now) request.entry)
        (streams (R.remaining recording.old) (W.contents out.old) (E.contents err.old))
        (streams (R.remaining recording.new) (W.contents out.new) (E.contents err.new)) result }
{
    match print(alloc, files, request, recording, out) {
        Ok(told) => tell_bounces(alloc, err, program.name, &told),
        Err(fault) => tell_fault(alloc, err, program.name, fault),
    }
}

// Writes the wires of a listing, a line each, and says whether there are more.
fn write_wires<'a, W: Write>(
    alloc: Global,
    listing: &Listing,
    out: &mut W,
) -> Result<bool, LoopFault<'a>>
    ensures { WritesListing listing.now result (W.contents out.old) (W.contents out.new) }
{
    match listing_text(alloc, listing) {
        Ok(text) => match write_whole(out, text.as_bytes()) {
            Ok(()) => Ok(listing.wires.are_more),
            Err(_) => Err(LoopFault::Wires),
        },
        Err(_) => Err(LoopFault::NoMemory),
    }
}

// Writes the wires of a recording, a line each, and says whether there are more.
fn print_wires<'a, R: Read, W: Write>(
    alloc: Global,
    request: &Request<'a, Common>,
    recording: &mut R,
    out: &mut W,
) -> Result<bool, LoopFault<'a>>
    ensures { DeliversWires request.now (R.remaining recording.old) result
        (W.contents out.old) (W.contents out.new) }
{
    let sound = (request.wanted.rate, request.wanted.threshold);
    match list_wires(alloc, request.format, sound, recording) {
        Ok(listing) => write_wires(alloc, &listing, out),
        Err(fault) => Err(LoopFault::Unlisted(fault)),
    }
}

// Tells that there are more wires, if there are, and returns the status of the process.
fn tell_more<E: Write>(alloc: Global, err: &mut E, program: &str, are_more: bool) -> u8
    ensures { TellsMore program.now are_more (E.contents err.old) (E.contents err.new) result }
{
    if !are_more {
        return DONE;
    }
    match write_whole(err, MORE) {
        Ok(()) => DONE,
        Err(_) => tell_fault(alloc, err, program, LoopFault::More),
    }
}

// Writes the wires of a recording, tells whether there are more, and returns the status of the process.
fn answer_wires<R: Read, W: Write, E: Write>(
    alloc: Global,
    request: &Request<'_, Common>,
    program: &Program<'_>,
    recording: &mut R,
    out: &mut W,
    err: &mut E,
) -> u8
    ensures { Runs (WritesWires request.now) (FailsToList program.now.name.now request.now)
        (streams (R.remaining recording.old) (W.contents out.old) (E.contents err.old))
        (streams (R.remaining recording.new) (W.contents out.new) (E.contents err.new)) result }
{
    match print_wires(alloc, request, recording, out) {
        Ok(are_more) => tell_more(alloc, err, program.name, are_more),
        Err(fault) => tell_fault(alloc, err, program.name, fault),
    }
}

impl<'a> Work<'a> for Asked<'a> {
    ghost use Rattle.xb_loop.specs.Program.{by_loop};

    ghost rules = { by_loop };

    fn ask(alloc: Global, _call: &Call<'a>, words: &Words<'a>) -> Result<Asked<'a>, Answer<'a>> {
        asked_of(alloc, words)
    }

    fn source(&self) -> Source<'a> {
        file_source(self.request.recording)
    }

    fn run<F: Files, R: Read, W: Write, E: Write>(self, given: Given<'_, 'a, F, R, W, E>) -> u8 {
        let Given {
            alloc,
            program,
            input,
            out,
            err,
            files,
        } = given;
        if self.list {
            return answer_wires(alloc, &self.request, program, input, out, err);
        }
        answer_rows(alloc, files, self.request, program, input, out, err)
    }
}
