// The elements of a picture, one after the other.
ghost use Rattle.std.specs.Prelude.{◌≡◌, ◌++◌, ◌∷◌, [], OnOk, string_bytes};
ghost use Rattle.xb_svg.specs.Drawings.{says};

use std::alloc::AllocError;
use xb_svg::{Element, Ink, Look};

// Draws a band.
pub(crate) fn put_band(
    out: &mut Vec<Element>,
    x: u64,
    y: u64,
    width: u64,
    height: u64,
    ink: Ink,
) -> Result<(), AllocError>
    ensures { OnOk result (says out.new.items ≡ says out.old.items) }
{
    out.push(Element::Band(x, y, width, height, ink))?;
    Ok(())
}

// Writes what the picture says.
pub(crate) fn put_text(
    out: &mut Vec<Element>,
    x: u64,
    y: u64,
    look: Look,
    words: String,
) -> Result<(), AllocError>
    ensures { OnOk result (says out.new.items ≡ says out.old.items ++ string_bytes words ∷ []) }
{
    out.push(Element::Text(x, y, look, words))?;
    Ok(())
}

// Writes a number of its scales.
pub(crate) fn put_scale(
    out: &mut Vec<Element>,
    x: u64,
    y: u64,
    look: Look,
    words: String,
) -> Result<(), AllocError>
    ensures { OnOk result (says out.new.items ≡ says out.old.items) }
{
    out.push(Element::Scale(x, y, look, words))?;
    Ok(())
}
