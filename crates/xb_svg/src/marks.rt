// Bands and dots.
ghost use Rattle.std.specs.Prelude.{◌≡◌, ◌++◌, OnOk, string_bytes};
ghost use Rattle.xb_svg.specs.Elements.{band_text, circle_text, dot_text};

use crate::escaped::push_escaped;
use crate::look::{Ink, ink_text};
use std::alloc::AllocError;

/// Puts a band of this colour from a place on, so wide and so high, after the text.
pub fn push_band(
    out: &mut String,
    x: u64,
    y: u64,
    width: u64,
    height: u64,
    ink: Ink,
) -> Result<(), AllocError>
    ensures { OnOk result (string_bytes out.new ≡ string_bytes out.old ++ band_text x y width height ink) }
{
    let fill = ink_text(ink);
    write!(
        out,
        "<rect x=\"{x}\" y=\"{y}\" width=\"{width}\" height=\"{height}\" fill=\"{fill}\"/>\n"
    )
}

// Puts the beginning of a dot after the text.
fn push_circle(out: &mut String, x: u64, y: u64, radius: u16, ink: Ink) -> Result<(), AllocError>
    ensures { OnOk result (string_bytes out.new ≡ string_bytes out.old ++ circle_text x y radius ink) }
{
    let fill = ink_text(ink);
    write!(
        out,
        "<circle cx=\"{x}\" cy=\"{y}\" r=\"{radius}\" fill=\"{fill}\">"
    )
}

/// Puts a dot of this colour and radius after the text, with its middle at a place. Its title, escaped, is what
/// a reader shows where somebody points at it.
pub fn push_dot(
    out: &mut String,
    x: u64,
    y: u64,
    radius: u16,
    ink: Ink,
    title: &str,
) -> Result<(), AllocError>
    ensures { OnOk result (string_bytes out.new
        ≡ string_bytes out.old ++ dot_text x y radius ink title.now) }
{
    push_circle(out, x, y, radius, ink)?;
    out.push_str("<title>")?;
    push_escaped(out, title)?;
    out.push_str("</title></circle>\n")
}
