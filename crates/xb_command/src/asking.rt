// What the words ask for by the table of a program, or why they choose nothing.
ghost use Rattle.std.specs.Prelude.{◌≡◌, ◌≢◌, ◌≤◌, None, true, IfErr, IfOk, IfSome, length, take};
ghost use Rattle.clap.specs.Faults.{fault_of, is_simple_and_free};
ghost use Rattle.clap.specs.Kinds.{HasKind};
ghost use Rattle.clap.specs.Matches.{found_of};
ghost use Rattle.clap.specs.Simple.{matches_of};
ghost use Rattle.clap.specs.Walk.{rows_of};
ghost use Rattle.clap.specs.Values.{kind_of};
ghost use Rattle.xb_command.specs.Answers.{AnswersError, AnswersKinds, IsAnswer, IsOneLine, IsRefusal, in_line, Takes};
ghost use Rattle.xb_command.specs.Commands.{texts_of};
ghost use Rattle.xb_command.specs.Given.{IsTaken};
ghost use Rattle.xb_command.specs.Judging.{breach_in};
ghost use Rattle.xb_command.specs.Tables.{command_by};

use crate::judging::{Breach, breach_in};
use crate::reading::Words;
use crate::table::{Call, Program, command_by};
use crate::wording::reason_of;
use clap::error::ErrorKind;
use clap::{ArgMatches, Error};
use std::alloc::{AllocError, Global};

/// A value that a program cannot take, though clap does.
#[derive(Clone, Copy)]
pub struct Misfit<'a> {
    /// The option that it was given.
    pub option: &'a str,
    /// The value, or the part of it that is wrong.
    pub value: &'a str,
    /// Why.
    pub reason: &'a str,
}

/// What is said where words that are taken ask for nothing together.
pub const NOTHING: Misfit<'static> = Misfit {
    option: "line",
    value: "",
    reason: "the words ask for nothing together",
};

/// Why the words of a command line choose nothing.
#[derive(Drop)]
pub enum Answer<'a> {
    /// They ask for help.
    Help,
    /// They ask for the version.
    Version,
    /// `clap` refuses them: of what kind that is, and why, in a line that names the first wrong word.
    Wrong(ErrorKind, Vec<u8>),
    /// Options do not go with each other or with a terminal, or one is missing beside another.
    Against(Breach<'a>),
    /// A value is none that the program takes.
    Unfit(Misfit<'a>),
    /// Memory ran out.
    NoMemory,
}

// What an error of clap on words says, with its message.
fn answer_by<'a>(
    alloc: Global,
    program: &Program<'a>,
    words: &[String],
    kind: ErrorKind,
    message: &str,
) -> Answer<'a>
    ensures { AnswersError kind result }
{
    match kind {
        ErrorKind::OutOfMemory => Answer::NoMemory,
        ErrorKind::DisplayHelp => Answer::Help,
        ErrorKind::DisplayVersion => Answer::Version,
        kind => match reason_of(alloc, program, words, message) {
            Ok(reason) => Answer::Wrong(kind, reason),
            Err(_) => Answer::NoMemory,
        },
    }
}

// What an error of clap on words says.
fn answer_of<'a>(
    alloc: Global,
    program: &Program<'a>,
    words: &[String],
    error: &Error,
) -> Answer<'a>
    ensures { AnswersError (kind_of error.now) result }
{
    match message_of(alloc, error) {
        Ok(message) => answer_by(alloc, program, words, error.kind(), &message),
        Err(_) => Answer::NoMemory,
    }
}

// The message of an error.
fn message_of(alloc: Global, error: &Error) -> Result<String, AllocError> {
    format!(in alloc; "{error}")
}

// Whether words may go on after an error, since a later word may be what is missing.
fn may_go_on(kind: ErrorKind, message: &str) -> bool {
    match kind {
        ErrorKind::MissingRequiredArgument => true,
        ErrorKind::InvalidValue => message.starts_with("error: a value is required"),
        _ => false,
    }
}

// What an error of the beginning of the words says, unless they may go on after it.
fn settled_answer<'a>(
    alloc: Global,
    program: &Program<'a>,
    words: &[String],
    error: &Error,
) -> Option<Answer<'a>>
    ensures { IfSome result (AnswersError (kind_of error.now)) }
{
    match message_of(alloc, error) {
        Ok(message) => {
            if may_go_on(error.kind(), &message) {
                None
            } else {
                Some(answer_by(alloc, program, words, error.kind(), &message))
            }
        }
        Err(_) => Some(Answer::NoMemory),
    }
}

// The words as clap takes them.
fn matched<'a>(
    alloc: Global,
    program: &Program<'a>,
    words: &'a [String],
) -> Result<ArgMatches<'a>, Error>
    requires { is_simple_and_free (command_by program.now) ≡ true }
    ensures taken { IfOk result (λ _. IsTaken (command_by program.now) (texts_of words.now)) }
    ensures words { IfOk result (λ m. rows_of (found_of m) ≡ matches_of (command_by program.now) (texts_of words.now)) }
    ensures refused { IfErr result (λ e. HasKind (fault_of (command_by program.now) (texts_of words.now)) e) }
{
    command_by(alloc, program)?.try_get_matches_from(words)
}

// Why clap refuses words that are the beginning of others, unless these may go on.
fn refusal_of<'a>(alloc: Global, program: &Program<'a>, words: &'a [String]) -> Option<Answer<'a>>
    requires { is_simple_and_free (command_by program.now) ≡ true }
    ensures { IfSome result (AnswersKinds (fault_of (command_by program.now) (texts_of words.now))) }
{
    match matched(alloc, program, words) {
        Ok(_) => None,
        Err(error) => settled_answer(alloc, program, words, &error),
    }
}

// The same of so many first words.
fn refusal_at<'a>(
    alloc: Global,
    program: &Program<'a>,
    words: &'a [String],
    count: usize,
) -> Option<Answer<'a>>
    requires simple { is_simple_and_free (command_by program.now) ≡ true }
    requires count { count ≤ length words.now }
    ensures { IfSome result (AnswersKinds (fault_of (command_by program.now) (take count (texts_of words.now)))) }
{
    refusal_of(alloc, program, &words[..count])
}

// Why clap refuses the shortest beginning of the words that it refuses, and that may not go on; or else the words.
fn first_refusal<'a>(
    alloc: Global,
    program: &Program<'a>,
    words: &'a [String],
    error: &Error,
) -> Answer<'a>
    requires simple { is_simple_and_free (command_by program.now) ≡ true }
    requires refused { HasKind (fault_of (command_by program.now) (texts_of words.now)) error.now }
    requires kind { kind_of error.now ≢ ErrorKind.OutOfMemory }
    ensures { IsRefusal (command_by program.now) (texts_of words.now) result }
{
    for count in 1..words.len() {
        if let Some(answer) = refusal_at(alloc, program, words, count) {
            return answer;
        }
    }
    answer_of(alloc, program, words, error)
}

// Why clap refuses words.
fn answer_to_error<'a>(alloc: Global, call: &Call<'a>, error: Error) -> Answer<'a>
    requires simple { is_simple_and_free (command_by call.now.program.now) ≡ true }
    requires refused { HasKind (fault_of (command_by call.now.program.now) (texts_of call.now.words.now)) error }
    ensures { IsAnswer call.now result }
{
    match error.kind() {
        ErrorKind::OutOfMemory => Answer::NoMemory,
        _ => first_refusal(alloc, call.program, call.words, &error),
    }
}

/// What the words of a call say by the table of its program; or the first wrong word with its reason.
pub fn ask_words<'a>(alloc: Global, call: &Call<'a>) -> Result<Words<'a>, Answer<'a>>
    requires { is_simple_and_free (command_by call.now.program.now) ≡ true }
    ensures asked { IfOk result (λ rows. Takes call.now rows) }
    ensures refused { IfErr result (IsAnswer call.now) }
{
    let matches = match matched(alloc, call.program, call.words) {
        Ok(matches) => matches,
        Err(error) => return Err(answer_to_error(alloc, call, error)),
    };
    match breach_in(&matches, call) {
        Some(breach) => Err(Answer::Against(breach)),
        None => Ok(Words { matches }),
    }
}
