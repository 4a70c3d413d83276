// The program: its words and a deck in, a status and a page out.
ghost use Rattle.std.specs.Prelude.{◌≡◌, ◌≢◌, true};
ghost use Rattle.clap.specs.Faults.{is_simple_and_free};
ghost use Rattle.xb_command.specs.Commands.{texts_of};
ghost use Rattle.xb_command.specs.Programs.{streams};
ghost use Rattle.xb_command.specs.Tables.{command_by};
ghost use Rattle.xb_command.specs.Works.{AttendsBy, PerformsBy, Runs};
ghost use Rattle.xb_office.specs.Program.{AttendsBank, HasFault, WritesPage, by_bank, is_no_memory, usage_line};
ghost use Rattle.xb_text.specs.Writing.{AppendsBeginning};

use crate::office::operate_by;
use crate::options::{Asked, Options};
use crate::words::{OPTIONS, ask};
use std::alloc::Global;
use std::io::{Read, Write};
use std::sync::Wait;
use std::thread::Threads;
use std::time::Clock;
use xb_command::{
    Answer, Call, DONE, Files, Program, Source, WORDS_REFUSED, open_text, tell_answer, tell_fault,
    text_source,
};
use xb_flow::{Gate, NoGate};
use xb_text::write_whole;

// Writes the page of a deck, or a line of its fault, and returns the status.
fn work<R: Read, W: Write, E: Write, H: Threads + Wait + Clock + Sync, G: Gate + Sync>(
    rt: &H,
    alloc: Global,
    program: &Program<'_>,
    options: Options,
    deck: &mut R,
    out: &mut W,
    err: &mut E,
    gate: &G,
) -> u8
    ensures { Runs WritesPage (HasFault program.now.name.now)
        (streams (R.remaining deck.old) (W.contents out.old) (E.contents err.old))
        (streams (R.remaining deck.new) (W.contents out.new) (E.contents err.new)) result }
{
    match operate_by(rt, alloc, deck, out, options, gate) {
        Ok(()) => DONE,
        Err(fault) => tell_fault(alloc, err, program.name, fault),
    }
}

// Opens the deck, and does its work.
fn perform<'a, F: Files, R: Read, W: Write, E: Write, H: Threads + Wait + Clock + Sync>(
    rt: &H,
    alloc: Global,
    program: &Program<'a>,
    asked: Asked<'a>,
    files: &F,
    input: &mut R,
    out: &mut W,
    err: &mut E,
) -> u8
    ensures { PerformsBy by_bank asked.entry program.now (F.bytes files.now)
        (streams (R.remaining input.old) (W.contents out.old) (E.contents err.old))
        (streams (R.remaining input.new) (W.contents out.new) (E.contents err.new)) result }
{
    match text_source(asked.deck) {
        Source::Text(name) => match open_text(alloc, files, name) {
            Ok(mut deck) => work(
                rt,
                alloc,
                program,
                asked.options,
                &mut deck,
                out,
                err,
                &NoGate,
            ),
            Err(fault) => tell_fault(alloc, err, program.name, fault),
        },
        Source::Input | Source::File(_) => {
            work(rt, alloc, program, asked.options, input, out, err, &NoGate)
        }
    }
}

/// Reads the words of a call, and by them writes the page of the deck that they name, as `operate` does. It returns the
/// status of the process, as `attend` of `xb_command` says. It waits where `operate` does.
pub fn attend_call<'a, F: Files, R: Read, W: Write, E: Write, H: Threads + Wait + Clock + Sync>(
    rt: &H,
    alloc: Global,
    call: &Call<'a>,
    files: &F,
    input: &mut R,
    out: &mut W,
    err: &mut E,
) -> u8
    requires { is_simple_and_free (command_by call.now.program.now) ≡ true }
    ensures { AttendsBy by_bank call.now (F.bytes files.now)
        (streams (R.remaining input.old) (W.contents out.old) (E.contents err.old))
        (streams (R.remaining input.new) (W.contents out.new) (E.contents err.new)) result }
{
    match ask(alloc, call) {
        Ok(asked) => perform(rt, alloc, call.program, asked, files, input, out, err),
        Err(answer) => tell_answer(alloc, out, err, call.program, answer),
    }
}

// Whether memory ran out while words were read.
fn is_no_memory(answer: &Answer<'_>) -> bool
    ensures { result ≡ is_no_memory answer.now }
{
    match answer {
        Answer::NoMemory => true,
        _ => false,
    }
}

// Refuses options by the usage alone, and returns the status.
fn refuse<E: Write>(err: &mut E) -> u8
    ensures status { result ≡ WORDS_REFUSED }
    ensures usage { AppendsBeginning (E.contents err.old) (E.contents err.new) usage_line }
{
    let _ = write_whole(err, OPTIONS.usage.as_bytes());
    WORDS_REFUSED
}

/// As `attend`, with a gate that each post passes before its turns.
pub fn attend_by<R: Read, W: Write, E: Write, H: Threads + Wait + Clock + Sync, G: Gate + Sync>(
    rt: &H,
    alloc: Global,
    words: Vec<String>,
    deck: &mut R,
    out: &mut W,
    err: &mut E,
    gate: &G,
) -> u8
    ensures { AttendsBank (texts_of words.items)
        (streams (R.remaining deck.old) (W.contents out.old) (E.contents err.old))
        (streams (R.remaining deck.new) (W.contents out.new) (E.contents err.new)) result }
{
    let call = Call {
        program: &OPTIONS,
        words: &words,
        is_typed: false,
        is_shown: false,
    };
    match ask(alloc, &call) {
        Ok(asked) => work(rt, alloc, &OPTIONS, asked.options, deck, out, err, gate),
        Err(answer) => {
            if is_no_memory(&answer) {
                tell_answer(alloc, out, err, &OPTIONS, Answer::NoMemory)
            } else {
                refuse(err)
            }
        }
    }
}

/// Reads the words of a command line, the program's name first, of which each is an option, and by them writes the page
/// of the deck on `deck`, as `operate` does. It returns the status of the process:
///
/// - `DONE`: the words are accepted, `out` got exactly the page, and `err` nothing;
/// - `FAULT`: the words are accepted and `operate` has a fault, and `out` got nothing, or the beginning
///   of the page where that could not be written; or memory ran out while the words were read. `err`
///   gets the fault as one line;
/// - `WORDS_REFUSED`: `clap` refuses the words, a number is out of its range, or they ask for help; `err`
///   gets the usage as one line, the deck is not read and `out` got nothing.
///
/// A fault in writing to `err` changes no status. It waits where `operate` does.
pub fn attend<R: Read, W: Write, E: Write, H: Threads + Wait + Clock + Sync>(
    rt: &H,
    alloc: Global,
    words: Vec<String>,
    deck: &mut R,
    out: &mut W,
    err: &mut E,
) -> u8
    ensures { AttendsBank (texts_of words.items)
        (streams (R.remaining deck.old) (W.contents out.old) (E.contents err.old))
        (streams (R.remaining deck.new) (W.contents out.new) (E.contents err.new)) result }
{
    attend_by(rt, alloc, words, deck, out, err, &NoGate)
}
