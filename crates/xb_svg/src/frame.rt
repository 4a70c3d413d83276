// The first element of a picture, and its end.
ghost use Rattle.std.specs.Prelude.{◌≡◌, ◌++◌, OnOk, codes, string_bytes};
ghost use Rattle.xb_svg.specs.Elements.{end_text, frame_text, open_text};

use crate::look::Ink;
use crate::marks::push_band;
use std::alloc::AllocError;

// Puts the first element of a picture after the text.
fn push_open(out: &mut String, width: u64, height: u64) -> Result<(), AllocError>
    ensures { OnOk result (string_bytes out.new ≡ string_bytes out.old ++ open_text width height) }
{
    write!(
        out,
        "<svg xmlns=\"http://www.w3.org/2000/svg\" viewBox=\"0 0 {width} {height}\""
    )?;
    let (wide, high) = (width / 5, height / 5);
    write!(
        out,
        " width=\"{wide}\" height=\"{high}\" font-family=\"Helvetica, Arial, sans-serif\">\n"
    )
}

/// Puts the beginning of a picture so wide and so high after the text: an SVG element, and white paper in it.
pub fn push_frame(out: &mut String, width: u64, height: u64) -> Result<(), AllocError>
    ensures { OnOk result (string_bytes out.new ≡ string_bytes out.old ++ frame_text width height) }
{
    push_open(out, width, height)?;
    push_band(out, 0, 0, width, height, Ink::White)
}

/// Puts the end of a picture after the text.
pub fn push_end(out: &mut String) -> Result<(), AllocError>
    ensures { OnOk result (string_bytes out.new ≡ string_bytes out.old ++ end_text) }
{
    out.push_str("</svg>\n")
}
