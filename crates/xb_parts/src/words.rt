// The words of the program: what the first of them names, or why it names nothing.
ghost use Rattle.std.specs.Prelude.{◌≡◌, codes, drop, take};
ghost use Rattle.xb_parts.specs.Program.{IsNoStep, step_of};

use xb_command::{FLAG, Misfit, Program, Value, Word, Words};

/// The program, and its words where the first names no step.
pub const PROGRAM: Program<'static> = Program {
    name: "mfoffice",
    about: "Makes the page of a deck of any length in parts, each by an mfbank of its own:

    mfoffice run DECK             prints its page: splits it, runs mfbank on the parts, joins their pages
    mfoffice split DECK FOLDER    splits the deck into decks that mfbank takes
    mfoffice join PAGE...         prints the page that the pages of these make together

Each has a --help of its own. The status is 0 for what was asked for, 1 for a fault, 2 where the words are
refused, and 141 where the reader of the page goes away.",
    words: &[
        Word {
            name: "COMMAND",
            value: Value::Itself,
            help: "run, split or join",
            ..FLAG
        },
        Word {
            name: "WORD",
            value: Value::AnyThatFollow,
            help: "what that takes",
            ..FLAG
        },
    ],
    reads: None,
    writes_sound: false,
    usage: "",
};

/// What the first word names.
#[derive(Clone, Copy)]
pub(crate) enum Step {
    /// A deck is split.
    Split,
    /// The pages of parts are joined.
    Join,
    /// Neither.
    Neither,
}

// The words after the name of the program.
pub(crate) fn after_name(words: &[String]) -> &[String]
    ensures { result.now ≡ drop 1 words.now }
{
    match words {
        [_, rest @ ..] => rest,
        [] => &[],
    }
}

// The name of the program and the first word, as far as there are any.
pub(crate) fn first_two(words: &[String]) -> &[String]
    ensures { result.now ≡ take 2 words.now }
{
    if words.len() > 2 { &words[..2] } else { words }
}

// What the first of these words names.
pub(crate) fn step_of(words: &[String]) -> Step
    ensures { result ≡ step_of words.now }
{
    match words {
        [first, ..] => match first.as_str() {
            "split" => Step::Split,
            "join" => Step::Join,
            _ => Step::Neither,
        },
        [] => Step::Neither,
    }
}

// Why a first word is refused.
fn reason_of(command: &str) -> &'static str {
    match command {
        "run" => "it starts other programs, which the script mfoffice does",
        _ => "run, split or join is wanted",
    }
}

// A first word that names no step.
fn no_step(command: &str) -> Misfit<'_>
    ensures option { result.option.now ≡ codes "COMMAND" }
    ensures value { result.value ≡ command.entry }
{
    Misfit {
        option: "COMMAND",
        value: command,
        reason: reason_of(command),
    }
}

// The word in place of a step.
pub(crate) fn misfit_of<'a>(words: &Words<'a>) -> Misfit<'a>
    ensures { IsNoStep words.now result }
{
    match words.text("COMMAND") {
        Some(command) => no_step(command),
        None => no_step(""),
    }
}
