// What the words of a table want beside them, what they do not go with, and what a terminal does not serve for.
ghost use Rattle.std.specs.Prelude.{◌≡◌};
ghost use Rattle.clap.specs.Matches.{found_of};
ghost use Rattle.clap.specs.Walk.{rows_of};
ghost use Rattle.xb_command.specs.Judging.{any_given, breach_in, breach_of, first_breach, first_given, is_awaited};
ghost use Rattle.xb_command.specs.Judging.{is_from_words, is_given, terminal_breach};

use crate::table::{Call, Program, Word};
use clap::ArgMatches;
use clap::parser::ValueSource;

/// What is wrong with words that `clap` takes.
#[derive(Clone, Copy)]
pub enum Breach<'a> {
    /// An option wants one of these beside it, and none was given.
    Lacks(&'a str, &'a [&'a str]),
    /// An option does not go with another one that was given.
    Beside(&'a str, &'a str),
    /// Nothing names what is to be read, and standard input is a terminal.
    Typed,
    /// Sound would be written to a terminal.
    Shown,
}

// Whether a value stands among the words.
fn is_from_words(source: Option<ValueSource>) -> bool
    ensures { result ≡ is_from_words source }
{
    match source {
        Some(ValueSource::CommandLine) => true,
        Some(ValueSource::DefaultValue) | None => false,
    }
}

// Whether the words name it.
fn is_given(words: &ArgMatches<'_>, name: &str) -> bool
    ensures { result ≡ is_given (rows_of (found_of words.now)) name.now }
{
    is_from_words(words.value_source(name))
}

// Whether one of these was given.
fn any_given(words: &ArgMatches<'_>, names: &[&str]) -> bool
    ensures { result ≡ any_given (rows_of (found_of words.now)) names.now }
{
    for name in names {
        if is_given(words, name) {
            return true;
        }
    }
    false
}

// The first of these that was given.
fn first_given<'a>(words: &ArgMatches<'_>, names: &[&'a str]) -> Option<&'a str>
    ensures { result ≡ first_given (rows_of (found_of words.now)) names.now }
{
    for name in names {
        if is_given(words, name) {
            return Some(*name);
        }
    }
    None
}

// What is wrong with a word beside the others, if anything is.
fn breach_of<'a>(words: &ArgMatches<'_>, word: &Word<'a>) -> Option<Breach<'a>>
    ensures { result ≡ breach_of (rows_of (found_of words.now)) word.now }
{
    if !is_given(words, word.name) {
        return None;
    }
    if !word.wants.is_empty() && !any_given(words, word.wants) {
        return Some(Breach::Lacks(word.name, word.wants));
    }
    match first_given(words, word.not_with) {
        Some(other) => Some(Breach::Beside(word.name, other)),
        None => None,
    }
}

// What is wrong with the first word of a table with which anything is.
fn first_breach<'a>(words: &ArgMatches<'_>, table: &[Word<'a>]) -> Option<Breach<'a>>
    ensures { result ≡ first_breach (rows_of (found_of words.now)) table.now }
{
    for word in table {
        if let Some(breach) = breach_of(words, word) {
            return Some(breach);
        }
    }
    None
}

// Whether a program reads standard input, since no word names what is read in its place.
fn is_awaited(words: &ArgMatches<'_>, program: &Program<'_>) -> bool
    ensures { result ≡ is_awaited (rows_of (found_of words.now)) program.now }
{
    match program.reads {
        Some(names) => !any_given(words, names),
        None => false,
    }
}

// What a terminal does not serve for.
fn terminal_breach<'a>(words: &ArgMatches<'_>, call: &Call<'a>) -> Option<Breach<'a>>
    ensures { result ≡ terminal_breach (rows_of (found_of words.now)) call.now }
{
    if call.is_typed && is_awaited(words, call.program) {
        return Some(Breach::Typed);
    }
    if call.is_shown && call.program.writes_sound {
        return Some(Breach::Shown);
    }
    None
}

// What is wrong with the words of a call.
pub(crate) fn breach_in<'a>(words: &ArgMatches<'_>, call: &Call<'a>) -> Option<Breach<'a>>
    ensures { result ≡ breach_in (rows_of (found_of words.now)) call.now }
{
    match first_breach(words, call.program.words) {
        Some(breach) => Some(breach),
        None => terminal_breach(words, call),
    }
}
