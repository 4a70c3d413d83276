// A program as a table: its words, each with what it takes, and the command that clap is given by it.
ghost use Rattle.std.specs.Prelude.{◌≡◌, false, IfOk};
ghost use Rattle.clap.specs.Simple.{app_of, new_rule};
ghost use Rattle.clap.specs.Walk.{rule_of};
ghost use Rattle.xb_command.specs.Tables.{command_by, new_command, rule_by_value, rule_by_word};

use clap::builder::ValueParser;
use clap::{Arg, ArgAction, Command};
use std::alloc::{AllocError, Global};

/// The version of the programs, which `--version` prints: that of CHANGELOG.
pub const VERSION: &str = "0.5";

/// What a word of a command line takes.
#[derive(Clone, Copy)]
pub enum Value<'a> {
    /// Nothing: `--name` is a flag.
    Nothing,
    /// A whole number from the first to the second: `--name N`.
    Number(u32, u32),
    /// One of these words: `--name WORD`.
    OneOf(&'a [&'a str]),
    /// A text: `--name TEXT`.
    Text,
    /// A text, each time that it is given: `--name TEXT --name TEXT`.
    Texts,
    /// The same, given at least once.
    SomeTexts,
    /// The word itself, which stands alone and may not be left out.
    Itself,
    /// The word itself, which stands alone, where there is one.
    MayStand,
    /// The word itself and each later one that stands alone: one at least.
    AllThatFollow,
    /// Each word that stands alone, if there are any.
    AnyThatFollow,
}

/// A word of a command line.
#[derive(Clone, Copy)]
pub struct Word<'a> {
    /// Its name, as in `--name`.
    pub name: &'a str,
    /// What it takes.
    pub value: Value<'a>,
    /// What its value is called in help, in capitals.
    pub shown: &'a str,
    /// The value where it is not given, if there is one.
    pub default: Option<&'a str>,
    /// It wants one of these options beside it, if any are named.
    pub wants: &'a [&'a str],
    /// The options beside which it may not stand.
    pub not_with: &'a [&'a str],
    /// What help says of it.
    pub help: &'a str,
}

/// A flag of which nothing is said: `Word { name: "json", help: "..", ..FLAG }`.
pub const FLAG: Word<'static> = Word {
    name: "",
    value: Value::Nothing,
    shown: "",
    default: None,
    wants: &[],
    not_with: &[],
    help: "",
};

/// A program, by its words.
#[derive(Clone, Copy)]
pub struct Program<'a> {
    /// Its name.
    pub name: &'a str,
    /// What it does, with an example.
    pub about: &'a str,
    /// Its words, in the order of help.
    pub words: &'a [Word<'a>],
    /// Where it reads standard input: the words that name what is read in its place.
    pub reads: Option<&'a [&'a str]>,
    /// Whether its output is sound, which is not written to a terminal.
    pub writes_sound: bool,
    /// A line that comes after the reason of refused words, if there is one.
    pub usage: &'a str,
}

/// How a program was called: its table, the words of the command line, the program's name first, and which of its
/// streams are terminals.
#[derive(Clone, Copy)]
pub struct Call<'a> {
    /// The program.
    pub program: &'a Program<'a>,
    /// The words.
    pub words: &'a [String],
    /// Whether standard input is a terminal.
    pub is_typed: bool,
    /// Whether standard output is a terminal.
    pub is_shown: bool,
}

// The argument of a word by what it takes.
fn arg_taking<'a>(arg: Arg<'a>, word: &Word<'a>) -> Arg<'a>
    requires rule { rule_of arg ≡ new_rule word.now.name.now }
    requires local { arg.global ≡ false }
    ensures rule { rule_of result ≡ rule_by_value word.now.name.now word.now.value }
    ensures local { result.global ≡ false }
{
    match word.value {
        Value::Nothing => arg.long(word.name).action(ArgAction::SetTrue),
        Value::Number(least, most) => {
            arg.long(word.name)
                .action(ArgAction::Set)
                .value_name(word.shown)
                .value_parser(ValueParser::Unsigned(u64::from(least), u64::from(most)))
        }
        Value::OneOf(names) => {
            arg.long(word.name)
                .action(ArgAction::Set)
                .value_name(word.shown)
                .value_parser(ValueParser::Names(names))
        }
        Value::Text => arg
            .long(word.name)
            .action(ArgAction::Set)
            .value_name(word.shown),
        Value::Texts => arg
            .long(word.name)
            .action(ArgAction::Append)
            .value_name(word.shown),
        Value::SomeTexts => {
            arg.long(word.name)
                .required(true)
                .action(ArgAction::Append)
                .value_name(word.shown)
        }
        Value::Itself => arg
            .required(true)
            .action(ArgAction::Set)
            .value_name(word.name),
        Value::MayStand => arg.action(ArgAction::Set).value_name(word.name),
        Value::AllThatFollow => arg
            .required(true)
            .action(ArgAction::Append)
            .value_name(word.name),
        Value::AnyThatFollow => arg.action(ArgAction::Append).value_name(word.name),
    }
}

// The argument of a word.
fn arg_of<'a>(alloc: Global, word: &Word<'a>) -> Arg<'a>
    ensures rule { rule_of result ≡ rule_by_word word.now }
    ensures local { result.global ≡ false }
{
    let arg = arg_taking(Arg::new(alloc, word.name).help(word.help), word);
    match word.default {
        Some(text) => arg.default_value(text),
        None => arg,
    }
}

// The command of a program without its words.
fn new_command<'a>(alloc: Global, program: &Program<'a>) -> Command<'a>
    ensures { app_of result ≡ new_command program.now.name.now }
{
    Command::new(alloc, program.name).version(VERSION)
}

// The command of a program.
pub(crate) fn command_by<'a>(
    alloc: Global,
    program: &Program<'a>,
) -> Result<Command<'a>, AllocError>
    ensures { IfOk result (λ c. app_of c ≡ command_by program.now) }
{
    let mut command = new_command(alloc, program);
    for word in program.words {
        command = command.arg(arg_of(alloc, word))?;
    }
    Ok(command)
}
