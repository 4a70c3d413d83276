// The page, its list of lines, and the section of a line.
ghost use Rattle.std.specs.Prelude.{◌≡◌, ◌++◌, OnOk, map, string_bytes};
ghost use Rattle.std.specs.List.{flat_map};
ghost use Rattle.xb_heard.specs.Attempts.{attempt_in};
ghost use Rattle.xb_report.specs.Pages.{columns_text, front_text, head_text, link_text, links_text, list_text, open_text, section_text, style_text, tail_text};

use crate::attempt::push_line;
use crate::html_attempt::push_attempts;
use crate::report::push_limits;
use std::alloc::{AllocError, Global};
use xb_heard::HeardAttempt;
use xb_model::{Limits, LineNo};

// Puts what stands before the style sheet after the text.
fn push_front(out: &mut String) -> Result<(), AllocError>
    ensures { OnOk result (string_bytes out.new ≡ string_bytes out.old ++ front_text) }
{
    out.push_str(
        "<!DOCTYPE html>\n<html lang=\"en\">\n<head>\n<meta charset=\"utf-8\"/>\n<meta name=\"viewport\" content=\"width=device-width\"/>\n<title>What the register heard</title>\n",
    )
}

// Puts the style sheet after the text: a long list scrolls by itself, and on a narrow screen a section; in a
// dark page the picture is dark too, its colours kept.
fn push_style(out: &mut String) -> Result<(), AllocError>
    ensures { OnOk result (string_bytes out.new ≡ string_bytes out.old ++ style_text) }
{
    out.push_str(
        "<style>
:root{color-scheme:light dark;font-family:Helvetica,Arial,sans-serif}
body{max-width:1304px;margin:2em auto;padding:0 1em}
nav p{max-height:9em;overflow:auto}
table{border-collapse:collapse}
th,td{padding:.2em .8em;text-align:right;border-bottom:1px solid #8884}
[colspan],td:last-child{text-align:left}
td[colspan]{white-space:pre-line}
svg{max-width:100%;height:auto;margin:1em 0}
@media(max-width:600px){section{overflow-x:auto}table{white-space:nowrap}svg{max-width:none}}
@media(prefers-color-scheme:dark){svg{filter:invert(.9) hue-rotate(180deg)}}
</style>
",
    )
}

/// Puts what stands before the sections of a page after the text, its style and the limits too. `Err` says
/// that memory ran out.
pub fn push_head(out: &mut String, limits: Limits) -> Result<(), AllocError>
    ensures { OnOk result (string_bytes out.new ≡ string_bytes out.old ++ head_text limits) }
{
    push_front(out)?;
    push_style(out)?;
    out.push_str("</head>\n<body>\n<h1>What the register heard</h1>\n<p>")?;
    push_limits(out, limits)?;
    out.push_str("</p>\n")
}

// Puts the link to the section of a line after the text.
fn push_link(out: &mut String, line: LineNo) -> Result<(), AllocError>
    ensures { OnOk result (string_bytes out.new ≡ string_bytes out.old ++ link_text line) }
{
    out.push_str("\n<a href=\"#line")?;
    push_line(out, line)?;
    out.push_str("\">")?;
    push_line(out, line)?;
    out.push_str("</a>")
}

// Puts the links to lines after the text.
fn push_each_link(out: &mut String, lines: &[LineNo]) -> Result<(), AllocError>
    ensures { OnOk result (string_bytes out.new ≡ string_bytes out.old ++ flat_map link_text lines.now) }
{
    for line in lines {
        push_link(out, *line)?;
    }
    Ok(())
}

// Puts the links to lines under a title after the text, if there are any.
fn push_links(out: &mut String, title: &str, lines: &[LineNo]) -> Result<(), AllocError>
    ensures { OnOk result (string_bytes out.new ≡ string_bytes out.old ++ links_text title.now lines.now) }
{
    if lines.is_empty() {
        return Ok(());
    }
    out.push_str("<p>")?;
    out.push_str(title)?;
    push_each_link(out, lines)?;
    out.push_str("\n</p>\n")
}

/// Puts a list of lines after the text, each with a link to its section: those with a refused attempt, and
/// then the others. `Err` says that memory ran out.
pub fn push_list(out: &mut String, refused: &[LineNo], others: &[LineNo]) -> Result<(), AllocError>
    ensures { OnOk result (string_bytes out.new ≡ string_bytes out.old ++ list_text refused.now others.now) }
{
    out.push_str("<nav>\n")?;
    push_links(out, "Lines with a refused attempt:", refused)?;
    push_links(out, "Other lines:", others)?;
    out.push_str("</nav>\n")
}

// Puts the heading of a line after the text, to which its link leads.
fn push_open(out: &mut String, line: LineNo) -> Result<(), AllocError>
    ensures { OnOk result (string_bytes out.new ≡ string_bytes out.old ++ open_text line) }
{
    out.push_str("<section id=\"line")?;
    push_line(out, line)?;
    out.push_str("\">\n<h2>Line ")?;
    push_line(out, line)?;
    out.push_str("</h2>\n<table>\n")
}

// Puts the row that names the columns after the text.
fn push_columns(out: &mut String) -> Result<(), AllocError>
    ensures { OnOk result (string_bytes out.new ≡ string_bytes out.old ++ columns_text) }
{
    out.push_str(
        "<tr><th>digit</th><th>pulses</th><th>p/s</th><th>% break</th><th>break ms</th><th>make ms</th><th>pause ms</th><th></th></tr>\n",
    )
}

/// Puts the section of a line after the text: its heading, a table of its attempts, each with what came of
/// it, and its picture. `Err` says that memory ran out.
pub fn push_section(
    alloc: Global,
    out: &mut String,
    limits: Limits,
    line: LineNo,
    attempts: &[HeardAttempt],
    picture: &str,
) -> Result<(), AllocError>
    ensures { OnOk result (string_bytes out.new ≡ string_bytes out.old
        ++ section_text limits line (map attempt_in attempts.now) picture.now) }
{
    push_open(out, line)?;
    push_columns(out)?;
    push_attempts(alloc, out, limits, line, attempts)?;
    out.push_str("</table>\n")?;
    out.push_str(picture)?;
    out.push_str("</section>\n")
}

/// Puts what stands after the sections of a page after the text. `Err` says that memory ran out.
pub fn push_tail(out: &mut String) -> Result<(), AllocError>
    ensures { OnOk result (string_bytes out.new ≡ string_bytes out.old ++ tail_text) }
{
    out.push_str("</body>\n</html>\n")
}
