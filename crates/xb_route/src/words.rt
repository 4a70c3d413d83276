// The words of the program, and what they ask for.
ghost use Rattle.std.specs.Prelude.{◌≡◌, IfErr, IfOk, map};
ghost use Rattle.xb_route.specs.Options.{IsNothing, Say, number_words, words_given};

use std::alloc::{AllocError, Global};
use xb_command::{Answer, FLAG, Misfit, NOTHING, Program, Value, Word, Words};

/// The program and its words.
pub const PROGRAM: Program<'static> = Program {
    name: "mfroute",
    about: "Says what an office does with numbers by its route table, each in a line: the number, and then

    KEYED       the keying as the page has it: the trunk group, then each key with its two tones
    DIALLED     the trunk group and the digits, where its route has send = \"dp\", as mftandem sends it
    REFUSED     UNKNOWN with its length: no route covers it
    INCOMPLETE  the count of its digits: by the plan of the table the number goes on
    IGNORED     at the end of a line, those digits that nobody hears after the number is complete

    mfroute routes.toml 234-5678 411 PE6-5000

Blanks and hyphens may group digits, and a letter is the digit beside which it stands on a dial (Q and Z stand at
none). The status is 0 for lines, also where a number is refused or not complete, 1 for a fault, of the table or of
what is no number, or where there are none, 2 where the words are refused, and 141 where the reader of the lines goes
away.",
    words: &[
        Word {
            name: "json",
            help: "a JSON object a number, each in a line: dialled, outcome, and trunk, sent, keys and ignored, or
        trunk, pulses and ignored, or reason and heard",
            ..FLAG
        },
        Word {
            name: "TABLE",
            value: Value::Itself,
            help: "the route table, a TOML file; - is standard input",
            ..FLAG
        },
        Word {
            name: "NUMBER",
            value: Value::AnyThatFollow,
            help: "a number; without one, or with - alone, the numbers are standard input, one in each text line,
        which is read to its end",
            ..FLAG
        },
    ],
    reads: Some(&["NUMBER"]),
    writes_sound: false,
    usage: "",
};

/// What is asked for.
#[derive(Drop)]
pub struct Request<'a> {
    /// The file of the route table; `-` is standard input.
    pub table: &'a str,
    /// The numbers; without one they are read of the input.
    pub numbers: Vec<&'a str>,
    /// Whether JSON is written.
    pub json: bool,
}

// What is said where the table and the numbers would both be standard input.
const BOTH: Misfit<'static> = Misfit {
    option: "TABLE",
    value: "-",
    reason: "standard input is the table, so at least one NUMBER is wanted",
};

// The words that are numbers: none where the numbers are the input, as `-` alone says.
fn number_words<'b, 'a>(given: &'b [&'a str]) -> &'b [&'a str]
    ensures { map (λ word. word.now) result.now ≡ number_words (map (λ word. word.now) given.entry.now) }
{
    match given {
        [only] if *only == "-" => &[],
        given => given,
    }
}

// The words that name the numbers.
fn numbers_given<'a>(alloc: Global, words: &Words<'a>) -> Result<Vec<&'a str>, AllocError>
    ensures { IfOk result (λ numbers.
        map (λ word. word.now) numbers.items ≡ number_words (words_given words.now)) }
{
    let mut numbers = Vec::new(alloc);
    numbers.extend_from_slice(number_words(words.texts("NUMBER").unwrap_or(&[])))?;
    Ok(numbers)
}

// What the words say; or why they ask for nothing.
pub(crate) fn request_of<'a>(alloc: Global, words: &Words<'a>) -> Result<Request<'a>, Answer<'a>>
    ensures says { IfOk result (Say words.now) }
    ensures nothing { IfErr result (IsNothing words.now) }
{
    let Some(table) = words.text("TABLE") else {
        return Err(Answer::Unfit(NOTHING));
    };
    let numbers = match numbers_given(alloc, words) {
        Ok(numbers) => numbers,
        Err(_) => return Err(Answer::NoMemory),
    };
    if table == "-" && numbers.is_empty() {
        return Err(Answer::Unfit(BOTH));
    }
    Ok(Request {
        table,
        numbers,
        json: words.flag("json"),
    })
}
