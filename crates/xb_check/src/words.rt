// The words of the program, and what they ask for.
ghost use Rattle.std.specs.Prelude.{◌≡◌, IfSome};
ghost use Rattle.xb_check.specs.Options.{IsNoName, Says, own_name};

use xb_command::{FLAG, Misfit, Program, Value, Word, Words};

/// The program and its words.
pub const PROGRAM: Program<'static> = Program {
    name: "mfcheck",
    about: "Says what is wrong or suspicious in a deck, or in a route table alone, one line each as compilers do: the
file, the text line, the column, what is wrong, and the text line itself. Each text line is read by itself.

Before the line --- it is a key, or a heading, that no rule names, which mfbank passes over, with the key that may have
been meant. After it these are told: the header; each record that is none, or is ignored since its line was closed; each
break of 1 to 4 ms, which may be a bounce; and once that semicolons or tabs separate the fields. Last comes the text
line that a fault of the route table is about, or that is nearly ---, where there is none. Of a deck that mfbank takes
it also tells each line of the office that has records and no attempt, and times that look like seconds or
microseconds. Where mfbank refuses the deck, one line on standard error says its first fault, as mfbank does; a table
alone is judged as that of a deck.

    mfcheck wrong_ms.deck

The status is 0 where mfbank takes the deck, 1 where it refuses it or the deck could not be checked, 2 where the
words are refused, and 141 where the reader of the output goes away.",
    words: &[
        Word {
            name: "DECK",
            value: Value::MayStand,
            help: "the deck or the table, a file; without it, or with -, standard input",
            ..FLAG
        },
        Word {
            name: "all",
            help: "tell all: without it, ten of each kind are told, and then how many more there are",
            ..FLAG
        },
        Word {
            name: "name",
            value: Value::Text,
            shown: "NAME",
            help: "the name that is told of the file (its own; of standard input: deck)",
            ..FLAG
        },
    ],
    reads: Some(&["DECK"]),
    writes_sound: false,
    usage: "",
};

/// What is asked for.
#[derive(Clone, Copy, Drop)]
pub struct Request<'a> {
    /// The file of the deck; without it, or with `-`, the input.
    pub deck: Option<&'a str>,
    /// The name that is told of it.
    pub name: &'a str,
    /// Whether all that was found is told.
    pub all: bool,
}

// The name that is told of a deck whose file has none.
const NAMELESS: &str = "deck";

// The name of a file, if there is one.
fn own_name(deck: Option<&str>) -> &str
    ensures { result.now ≡ own_name deck.entry }
{
    match deck {
        None | Some("-") => NAMELESS,
        Some(name) => name,
    }
}

// What the words say.
pub(crate) fn request_of<'a>(words: &Words<'a>) -> Request<'a>
    ensures { Says words.now result }
{
    let deck = words.text("DECK");
    let name = match words.text("name") {
        Some(name) => name,
        None => own_name(deck),
    };
    Request {
        deck,
        name,
        all: words.flag("all"),
    }
}

// The name that is to be told, if it is empty.
pub(crate) fn misfit_of<'a>(words: &Words<'a>) -> Option<Misfit<'a>>
    ensures { IfSome result (IsNoName words.now) }
{
    match words.text("name") {
        Some("") => Some(Misfit {
            option: "name",
            value: "",
            reason: "a name is wanted",
        }),
        _ => None,
    }
}
