// A page of plots.
ghost use Rattle.std.specs.Prelude.{◌≡◌, ◌++◌, OnOk, codes, string_bytes};
ghost use Rattle.xb_plot.specs.Pages.{front_text, page_end_text, page_start_text, part_text};
ghost use Rattle.xb_plot.specs.Pages.{style_text, table_text};
ghost use Rattle.xb_plot.specs.Plots.{plot_text};

use crate::plot::push_plot;
use crate::turns::Turn;
use std::alloc::{AllocError, Global};
use xb_contact::Scale;
use xb_model::LineNo;
use xb_svg::push_escaped;
use xb_turns::Windows;

// Puts what stands before the style sheet after the text.
fn push_front(out: &mut String) -> Result<(), AllocError>
    ensures { OnOk result (string_bytes out.new ≡ string_bytes out.old ++ front_text) }
{
    out.push_str(
        "<!DOCTYPE html>\n<html lang=\"en\">\n<head>\n<meta charset=\"utf-8\"/>\n<meta name=\"viewport\" content=\"width=device-width\"/>\n<title>Dials on the bench</title>\n",
    )
}

// Puts the style sheet after the text: a plot is as wide as the page, and a page of paper parts none.
fn push_style(out: &mut String) -> Result<(), AllocError>
    ensures { OnOk result (string_bytes out.new ≡ string_bytes out.old ++ style_text) }
{
    out.push_str(
        "<style>
:root{color-scheme:light dark;font-family:Helvetica,Arial,sans-serif}
body{max-width:1328px;margin:2em auto;padding:0 1em}
svg{max-width:100%;height:auto;margin:1em 0;break-inside:avoid}
pre{overflow-x:auto;font-size:.9em;line-height:1.4}
@media(prefers-color-scheme:dark){svg{filter:invert(.9) hue-rotate(180deg)}}
</style>
",
    )
}

/// Puts the beginning of a page after the text, with these words, escaped, below its title. `Err` says that
/// memory ran out.
pub fn push_page_start(out: &mut String, words: &str) -> Result<(), AllocError>
    ensures { OnOk result (string_bytes out.new ≡ string_bytes out.old ++ page_start_text words.now) }
{
    push_front(out)?;
    push_style(out)?;
    out.push_str("</head>\n<body>\n<h1>Dials on the bench</h1>\n<p>")?;
    push_escaped(out, words)?;
    out.push_str("</p>\n")
}

// Puts text lines after the text as they are, escaped.
#[tactic(auto, unfolding(crate::specs::Pages::table_text))]
fn push_table(out: &mut String, lines: &str) -> Result<(), AllocError>
    ensures { OnOk result (string_bytes out.new ≡ string_bytes out.old ++ table_text lines.now) }
{
    out.push_str("<pre>\n")?;
    push_escaped(out, lines)?;
    out.push_str("</pre>\n</section>\n")
}

/// Puts the part of a line after the text: its plot, and below it the text lines of its digits, escaped.
/// `Err` says that memory ran out.
pub fn push_page_part(
    alloc: Global,
    out: &mut String,
    windows: Windows,
    scale: Scale,
    line: LineNo,
    summary: &str,
    older: u64,
    turns: &[Turn],
    lines: &str,
) -> Result<(), AllocError>
    ensures { OnOk result (string_bytes out.new ≡ string_bytes out.old
        ++ part_text (plot_text windows scale line summary.now older turns.now) lines.now) }
{
    out.push_str("<section>\n")?;
    push_plot(alloc, out, windows, scale, line, summary, older, turns)?;
    push_table(out, lines)
}

/// Puts the end of a page after the text. `Err` says that memory ran out.
pub fn push_page_end(out: &mut String) -> Result<(), AllocError>
    ensures { OnOk result (string_bytes out.new ≡ string_bytes out.old ++ page_end_text) }
{
    out.push_str("</body>\n</html>\n")
}
