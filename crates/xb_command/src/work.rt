// A program by its table: its words, its files and its streams in, a status out.
ghost use Rattle.std.specs.Prelude.{◌≡◌, true, IfErr, IfOk};
ghost use Rattle.clap.specs.Faults.{is_simple_and_free};
ghost use Rattle.xb_command.specs.Answers.{Takes};
ghost use Rattle.xb_command.specs.Programs.{streams};
ghost use Rattle.xb_command.specs.Tables.{command_by};
ghost use Rattle.xb_command.specs.Works.{AttendsBy, IsWrong, PerformsBy, Runs, file_source, text_source};

use crate::answering::tell_answer;
use crate::asking::{Answer, ask_words};
use crate::opening::{open_file, open_text};
use crate::reading::Words;
use crate::system::Files;
use crate::table::{Call, Program};
use crate::telling::tell_fault;
use std::alloc::Global;
use std::io::{Read, Write};

/// What a program reads beside the files that it reads whole.
#[derive(Clone, Copy)]
pub enum Source<'a> {
    /// Standard input, if anything.
    Input,
    /// The file of this name, which is text.
    Text(&'a str),
    /// The file of this name, which is any bytes.
    File(&'a str),
}

/// The source that a word names: standard input where there is none, or it is `-`.
pub fn text_source(name: Option<&str>) -> Source<'_>
    ensures { result ≡ text_source name.entry }
{
    match name {
        None | Some("-") => Source::Input,
        Some(name) => Source::Text(name),
    }
}

/// The same of a file that is any bytes.
pub fn file_source(name: Option<&str>) -> Source<'_>
    ensures { result ≡ file_source name.entry }
{
    match name {
        None | Some("-") => Source::Input,
        Some(name) => Source::File(name),
    }
}

/// What a program works with: its streams, and what its process gives it.
#[derive(Drop)]
pub struct Given<'s, 'a, F, R, W, E> {
    /// What it reads.
    pub input: &'s mut R,
    /// Its standard output.
    pub out: &'s mut W,
    /// Its standard error.
    pub err: &'s mut E,
    /// Its memory.
    pub alloc: Global,
    /// The program.
    pub program: &'s Program<'a>,
    /// The files that there are.
    pub files: &'s F,
}

/// What the words of a program's command line ask for, and what is done by it.
pub trait Work<'a>: Sized + Drop {
    ghost use Rattle.xb_command.specs.Works.{Rules};

    // which words ask for it, what it reads, and what holds of its streams where it was done, and where it failed
    ghost rules: { Rules Self };

    /// What the words of a call ask for, which clap took; or which of their values is none, or that memory ran out.
    fn ask(alloc: Global, call: &Call<'a>, words: &Words<'a>) -> Result<Self, Answer<'a>>
        requires { Takes call.now words.now }
        ensures asks { IfOk result (rules.Asks call.now) }
        ensures wrong { IfErr result (IsWrong rules.Misfits call.now) };

    /// What is read.
    fn source(&self) -> Source<'a>
        ensures { result ≡ rules.source self.now };

    /// Does what is asked for with what is given, and returns the status.
    fn run<F: Files, R: Read, W: Write, E: Write>(self, given: Given<'_, 'a, F, R, W, E>) -> u8
        ensures { Runs (rules.Done self given.entry.program.now (F.bytes given.entry.files.now))
            (rules.Fails self given.entry.program.now (F.bytes given.entry.files.now))
            (streams (R.remaining given.entry.input.now) (W.contents given.entry.out.now)
            (E.contents given.entry.err.now))
            (streams (R.remaining given.exit.0.now) (W.contents given.exit.1.0.now)
            (E.contents given.exit.1.1.0.now)) result };
}

// What the words of a call ask for, or why they choose nothing.
fn asked<'a, Q: Work<'a>>(alloc: Global, call: &Call<'a>) -> Result<Q, Answer<'a>>
    requires { is_simple_and_free (command_by call.now.program.now) ≡ true }
    ensures asks { IfOk result (Q.rules.Asks call.now) }
    ensures wrong { IfErr result (IsWrong Q.rules.Misfits call.now) }
{
    match ask_words(alloc, call) {
        Ok(words) => Q::ask(alloc, call, &words),
        Err(answer) => Err(answer),
    }
}

// Opens what is read, and does what is asked for with it.
fn perform<'a, Q: Work<'a>, F: Files, R: Read, W: Write, E: Write>(
    alloc: Global,
    request: Q,
    program: &Program<'a>,
    files: &F,
    input: &mut R,
    out: &mut W,
    err: &mut E,
) -> u8
    ensures { PerformsBy Q.rules request program.now (F.bytes files.now)
        (streams (R.remaining input.old) (W.contents out.old) (E.contents err.old))
        (streams (R.remaining input.new) (W.contents out.new) (E.contents err.new)) result }
{
    match request.source() {
        Source::Input => request.run(Given {
            input,
            out,
            err,
            alloc,
            program,
            files,
        }),
        Source::Text(name) => match open_text(alloc, files, name) {
            Ok(mut file) => {
                let input = &mut file;
                request.run(Given {
                    input,
                    out,
                    err,
                    alloc,
                    program,
                    files,
                })
            }
            Err(fault) => tell_fault(alloc, err, program.name, fault),
        },
        Source::File(name) => match open_file(alloc, files, name) {
            Ok(mut file) => {
                let input = &mut file;
                request.run(Given {
                    input,
                    out,
                    err,
                    alloc,
                    program,
                    files,
                })
            }
            Err(fault) => tell_fault(alloc, err, program.name, fault),
        },
    }
}

/// Reads the words of a call, does by them what a program does, and returns the status of the process:
///
/// - `DONE`: what they ask for was done; or they ask for help or the version, and that was written;
/// - `FAULT`: there was a fault, or the file that they name cannot be opened, or memory ran out; `err` gets it as one line;
/// - `WORDS_REFUSED`: the words are wrong; nothing is read or written, but `err` gets a line that says why.
///
/// A fault in writing that line to `err` changes no status.
pub fn attend<'a, Q: Work<'a>, F: Files, R: Read, W: Write, E: Write>(
    alloc: Global,
    call: &Call<'a>,
    files: &F,
    input: &mut R,
    out: &mut W,
    err: &mut E,
) -> u8
    requires { is_simple_and_free (command_by call.now.program.now) ≡ true }
    ensures { AttendsBy Q.rules call.now (F.bytes files.now)
        (streams (R.remaining input.old) (W.contents out.old) (E.contents err.old))
        (streams (R.remaining input.new) (W.contents out.new) (E.contents err.new)) result }
{
    match asked::<Q>(alloc, call) {
        Ok(request) => perform(alloc, request, call.program, files, input, out, err),
        Err(answer) => tell_answer(alloc, out, err, call.program, answer),
    }
}
