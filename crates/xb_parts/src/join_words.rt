// The words of a join, and what they ask for.
ghost use Rattle.std.specs.Prelude.{◌≡◌, IfOk, IfSome, [], codes, map, unwrap_or};
ghost use Rattle.clap.specs.Walk.{all_of};
ghost use Rattle.xb_parts.specs.JoinOptions.{IsNoFile, Say};

use std::alloc::{AllocError, Global};
use xb_command::{FLAG, Misfit, Program, Value, Word, Words};

/// `mfoffice join` and its words.
pub const JOIN_PROGRAM: Program<'static> = Program {
    name: "mfoffice join",
    about: "Prints the page that the pages of parts make together: their entries, part by part, and a line with the
sums of their totals. Each PAGE is a file that mfbank printed; they are named in the order of their lines, as
FOLDER/*.page gives them. All are checked before anything is printed: one that is damaged, cut off, out of its
order or of lines that an earlier one has had is named.

    mfoffice join --list day.parts/parts.txt day.parts/*.page > day.page

The status is 0 for a page, 1 for a fault, 2 where the words are refused, and 141 where the reader of the page
goes away.",
    words: &[
        Word {
            name: "list",
            value: Value::Text,
            shown: "FILE",
            help: "the list of parts that mfoffice split wrote: each part then has to have its page, and no line
        but its own, so that one that is missing is named too",
            ..FLAG
        },
        Word {
            name: "PAGE",
            value: Value::AllThatFollow,
            help: "the page of a part, a file; at least one",
            ..FLAG
        },
    ],
    reads: None,
    writes_sound: false,
    usage: "",
};

/// What is joined.
#[derive(Drop)]
pub struct JoinRequest<'a> {
    /// The file of the list of parts, if there is one.
    pub list: Option<&'a str>,
    /// The files of the pages, in the order of their lines.
    pub pages: Vec<&'a str>,
}

// The words that stand alone.
fn pages_given<'a>(alloc: Global, words: &Words<'a>) -> Result<Vec<&'a str>, AllocError>
    ensures { let given = unwrap_or (all_of (codes "PAGE") words.now) [] in
        IfOk result (λ pages. map (λ name. name.now) pages.items ≡ given) }
{
    let mut pages = Vec::new(alloc);
    pages.extend_from_slice(words.texts("PAGE").unwrap_or(&[]))?;
    Ok(pages)
}

// What the words say.
pub(crate) fn request_of<'a>(
    alloc: Global,
    words: &Words<'a>,
) -> Result<JoinRequest<'a>, AllocError>
    ensures { IfOk result (Say words.now) }
{
    Ok(JoinRequest {
        list: words.text("list"),
        pages: pages_given(alloc, words)?,
    })
}

// The name of a list that is empty, if it is.
pub(crate) fn misfit_of<'a>(words: &Words<'a>) -> Option<Misfit<'a>>
    ensures { IfSome result (IsNoFile words.now) }
{
    match words.text("list") {
        Some("") => Some(Misfit {
            option: "list",
            value: "",
            reason: "a file is wanted",
        }),
        _ => None,
    }
}
