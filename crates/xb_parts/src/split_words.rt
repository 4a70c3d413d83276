// The words of a split, and what they ask for.
ghost use Rattle.std.specs.Prelude.{◌≡◌};
ghost use Rattle.xb_parts.specs.SplitOptions.{Say, request_of};

use xb_command::{FLAG, Program, Value, Word, Words};

/// `mfoffice split` and its words.
pub const SPLIT_PROGRAM: Program<'static> = Program {
    name: "mfoffice split",
    about: "Splits a deck of any length by lines into decks that mfbank takes, and writes them into FOLDER, as
0000-4999.deck, with a list of them, parts.txt. FOLDER is made; one that has anything in it is refused. DECK is a
file, which is read twice; it is never held in memory. Parts are as few as may be. A route table that mfbank
refuses is refused before anything is made.

    mfoffice split day.deck day.parts
    for deck in day.parts/*.deck; do mfbank \"$deck\" > \"${deck%.deck}.page\"; done
    mfoffice join --list day.parts/parts.txt day.parts/*.page > day.page

parts.txt is there only when all decks are whole: a run that was stopped at any moment leaves none. On a terminal
the script that calls it shows how far it is, first as it counts the records and then as it writes them.

The status is 0 for parts, 1 for a fault, and 2 where the words are refused.",
    words: &[
        Word {
            name: "DECK",
            value: Value::Itself,
            help: "the deck, a file; with -, the file that is standard input",
            ..FLAG
        },
        Word {
            name: "FOLDER",
            value: Value::Itself,
            help: "the folder of its parts, which is new or empty",
            ..FLAG
        },
        Word {
            name: "parts",
            value: Value::Number(0, u32::MAX),
            shown: "N",
            help: "at most N parts (a deck has 1 to 500), as even as the lines allow; more only where N would not fit; a
        whole number",
            ..FLAG
        },
    ],
    reads: None,
    writes_sound: false,
    usage: "",
};

/// What is split, and how.
#[derive(Clone, Copy)]
pub struct SplitRequest<'a> {
    /// The file of the deck.
    pub big: &'a str,
    /// The folder of the parts.
    pub folder: &'a str,
    /// How many parts are wanted; as few as may be where it is not said.
    pub parts: Option<u32>,
}

// What the words say.
#[derive(Clone, Copy)]
pub(crate) struct Options<'a> {
    pub(crate) big: Option<&'a str>,
    pub(crate) folder: Option<&'a str>,
    pub(crate) parts: Option<u32>,
}

// What the words say.
pub(crate) fn options_of<'a>(words: &Words<'a>) -> Options<'a>
    ensures { Say words.now result }
{
    Options {
        big: words.text("DECK"),
        folder: words.text("FOLDER"),
        parts: words.number("parts"),
    }
}

// What the options ask for; `None` where they don't name a deck and a folder.
pub(crate) fn request_of<'a>(options: Options<'a>) -> Option<SplitRequest<'a>>
    ensures { result ≡ request_of options.entry }
{
    let big = options.big?;
    let folder = options.folder?;
    Some(SplitRequest {
        big,
        folder,
        parts: options.parts,
    })
}
