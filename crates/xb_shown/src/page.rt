// A page in HTML with a section for each keying.
ghost use Rattle.std.specs.Prelude.{◌≡◌, ◌++◌, IfOk, OnOk, string_bytes};
ghost use Rattle.xb_measured.specs.Lines.{text_lines};
ghost use Rattle.xb_svg.specs.Drawings.{PutsBy};
ghost use Rattle.xb_shown.specs.Pictures.{part_in};
ghost use Rattle.xb_shown.specs.Sections.{end_text, figures_text, lines_text, opening_text, section_text};
ghost use Rattle.xb_shown.specs.Sections.{start_text, told_text, told_words};

use crate::heading::{Title, keyed_words, title_words};
use crate::keying::push_keying;
use crate::part::Part;
use std::alloc::{AllocError, Global};
use xb_measured::{Heard, NamedKey, began_ms, doubts_text, figures_of, text_line};
use xb_svg::push_escaped;

/// Puts what stands before the sections of a page after the text. The page needs no script and no other file, and is
/// printed with no section cut in two. `Err` says that memory ran out.
pub(crate) fn push_page_start(out: &mut String) -> Result<(), AllocError>
    ensures { OnOk result (string_bytes out.new ≡ string_bytes out.old ++ start_text) }
{
    out.push_str(
        "<!DOCTYPE html>
<html lang=\"en\">
<head>
<meta charset=\"utf-8\"/>
<meta name=\"viewport\" content=\"width=device-width\"/>
<title>What was keyed</title>
<style>
:root{color-scheme:light dark;font-family:Helvetica,Arial,sans-serif}
body{max-width:1180px;margin:2em auto;padding:0 1em}
svg{max-width:100%;height:auto}
pre{overflow-x:auto}
.told{color:#c8102e;white-space:pre-wrap}
@media(prefers-color-scheme:dark){svg{filter:invert(.9) hue-rotate(180deg)}.told{color:#ff8a98}}
@media print{section{break-inside:avoid}pre{white-space:pre-wrap;font-size:8pt}}
</style>
</head>
<body>
<h1>What was keyed</h1>
",
    )
}

// Puts the heading of a section after the text.
fn push_opening(
    alloc: Global,
    out: &mut String,
    title: Title,
    keys: &[NamedKey],
) -> Result<(), AllocError>
    ensures { OnOk result (string_bytes out.new ≡ string_bytes out.old ++ opening_text title keys.now) }
{
    let words = title_words(alloc, title, began_ms(keys))?;
    let keyed = keyed_words(alloc, title, keys)?;
    write!(out, "<section>\n<h2>{words}: {keyed}</h2>\n")
}

// The lines of keys, by the last key before them.
fn lines_of(alloc: Global, before: Option<Heard>, keys: &[NamedKey]) -> Result<String, AllocError>
    ensures { IfOk result (λ text. string_bytes text ≡ text_lines before keys.now) }
{
    let mut text = String::new(alloc);
    let mut last = before;
    for key in keys {
        let heard = key.heard();
        let line = text_line(alloc, &figures_of(last, heard))?;
        text.push_str(&line)?;
        last = Some(heard);
    }
    Ok(text)
}

// What is told of keys: the doubts of an entry.
fn told_words(alloc: Global, title: Title, keys: &[NamedKey]) -> Result<String, AllocError>
    ensures { IfOk result (λ text. string_bytes text ≡ told_words title keys.now) }
{
    match title {
        Title::Entry(number) => doubts_text(alloc, number, keys),
        Title::Loose => Ok(String::new(alloc)),
    }
}

// Puts what is told of keys after the text, and the end of their section.
fn push_told(out: &mut String, told: &str) -> Result<(), AllocError>
    ensures { OnOk result (string_bytes out.new ≡ string_bytes out.old ++ told_text told.now) }
{
    out.push_str("</pre>\n<pre class=\"told\">")?;
    push_escaped(out, told)?;
    out.push_str("</pre>\n</section>\n")
}

// Puts these lines of keys, and what is told of them, after the text.
fn push_lines(out: &mut String, lines: &str, told: &str) -> Result<(), AllocError>
    ensures { OnOk result (string_bytes out.new ≡ string_bytes out.old ++ lines_text lines.now told.now) }
{
    out.push_str("<pre>")?;
    push_escaped(out, lines)?;
    push_told(out, told)
}

// Puts the lines of keys, and what is told of them, after the text.
fn push_figures(alloc: Global, out: &mut String, part: &Part<'_>) -> Result<(), AllocError>
    ensures { OnOk result (string_bytes out.new
        ≡ string_bytes out.old ++ figures_text part.now.title part.now.before part.now.keys.now) }
{
    let lines = lines_of(alloc, part.before, part.keys)?;
    let told = told_words(alloc, part.title, part.keys)?;
    push_lines(out, &lines, &told)
}

/// Puts the section of keys and of what they are after the text, by the last key before them: a heading, the picture, the
/// line of each key, and what is doubtful of an entry. `Err` says that memory ran out.
pub(crate) fn push_part(alloc: Global, out: &mut String, part: &Part<'_>) -> Result<(), AllocError>
    ensures { OnOk result (PutsBy (λ looks. section_text looks (part_in part.now))
        (string_bytes out.old) (string_bytes out.new)) }
{
    push_opening(alloc, out, part.title, part.keys)?;
    push_keying(alloc, out, part)?;
    push_figures(alloc, out, part)
}

/// Puts what stands after the sections of a page after the text. `Err` says that memory ran out.
pub(crate) fn push_page_end(out: &mut String) -> Result<(), AllocError>
    ensures { OnOk result (string_bytes out.new ≡ string_bytes out.old ++ end_text) }
{
    out.push_str("</body>\n</html>\n")
}
