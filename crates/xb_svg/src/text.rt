// Texts of a picture.
ghost use Rattle.std.specs.Prelude.{◌≡◌, ◌++◌, OnOk, codes, string_bytes};
ghost use Rattle.xb_svg.specs.Elements.{look_text, place_text, text_end, text_start, words_text};

use crate::escaped::push_escaped;
use crate::look::{Look, anchor_text, ink_text, weight_text};
use std::alloc::AllocError;

// Puts where a text stands after the text.
fn push_place(out: &mut String, x: u64, y: u64) -> Result<(), AllocError>
    ensures { OnOk result (string_bytes out.new ≡ string_bytes out.old ++ place_text x y) }
{
    write!(out, "<text x=\"{x}\" y=\"{y}")
}

// Puts how a text looks after the text.
fn push_look(out: &mut String, look: Look) -> Result<(), AllocError>
    ensures { OnOk result (string_bytes out.new ≡ string_bytes out.old ++ look_text look) }
{
    let size = look.size;
    let fill = ink_text(look.ink);
    let anchor = anchor_text(look.anchor);
    let weight = weight_text(look.bold);
    write!(
        out,
        "\" font-size=\"{size}\" fill=\"{fill}\" text-anchor=\"{anchor}\" font-weight=\"{weight}\">"
    )
}

/// Puts the beginning of a text of the picture after the text, to which words are added as XML wants them.
pub fn push_text_start(out: &mut String, x: u64, y: u64, look: Look) -> Result<(), AllocError>
    ensures { OnOk result (string_bytes out.new ≡ string_bytes out.old ++ text_start x y look) }
{
    push_place(out, x, y)?;
    push_look(out, look)
}

/// Puts the end of a text of the picture after the text.
pub fn push_text_end(out: &mut String) -> Result<(), AllocError>
    ensures { OnOk result (string_bytes out.new ≡ string_bytes out.old ++ text_end) }
{
    out.push_str("</text>\n")
}

/// Puts a text of the picture after the text, its words escaped.
pub fn push_text(
    out: &mut String,
    x: u64,
    y: u64,
    look: Look,
    words: &str,
) -> Result<(), AllocError>
    ensures { OnOk result (string_bytes out.new ≡ string_bytes out.old ++ words_text x y look words.now) }
{
    push_text_start(out, x, y, look)?;
    push_escaped(out, words)?;
    push_text_end(out)
}
