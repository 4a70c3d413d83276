// A drawing: elements on white paper.
ghost use Rattle.std.specs.Prelude.{◌≡◌, ◌++◌, OnOk, string_bytes};
ghost use Rattle.std.specs.List.{flat_map};
ghost use Rattle.xb_svg.specs.Drawings.{PutsBy, drawing_text, element_text, says};

use crate::frame::{push_end, push_frame};
use crate::line::{Step, push_line};
use crate::look::{Ink, Look};
use crate::marks::push_band;
use crate::text::push_text;
use std::alloc::AllocError;

/// An element of a drawing. Places are in units of the picture, from the left and from the top.
#[derive(Drop)]
pub enum Element {
    /// A band from a place on, so wide and so high.
    Band(u64, u64, u64, u64, Ink),
    /// A line of this colour, so thick.
    Line(Vec<Step>, Ink, u16),
    /// A text at a place, which the drawing says.
    Text(u64, u64, Look, String),
    /// A text at a place that is one of the drawing's own, as a number of its scale.
    Scale(u64, u64, Look, String),
}

// Puts an element after the text.
fn push_element(out: &mut String, element: &Element) -> Result<(), AllocError>
    ensures { OnOk result (string_bytes out.new ≡ string_bytes out.old ++ element_text element.now) }
{
    match element {
        Element::Band(x, y, width, height, ink) => push_band(out, *x, *y, *width, *height, *ink),
        Element::Line(steps, ink, width) => push_line(out, steps, *ink, *width),
        Element::Text(x, y, look, words) => push_text(out, *x, *y, *look, words),
        Element::Scale(x, y, look, words) => push_text(out, *x, *y, *look, words),
    }
}

// Puts elements after the text.
fn push_elements(out: &mut String, elements: &[Element]) -> Result<(), AllocError>
    ensures { OnOk result (string_bytes out.new
        ≡ string_bytes out.old ++ flat_map element_text elements.now) }
{
    for element in elements {
        push_element(out, element)?;
    }
    Ok(())
}

/// Puts a drawing so wide and so high after the text: an SVG element that says what these elements say, in order.
/// `Err` says that memory ran out.
pub fn push_drawing(
    out: &mut String,
    width: u64,
    height: u64,
    elements: &[Element],
) -> Result<(), AllocError>
    ensures { OnOk result (PutsBy (λ looks. drawing_text looks (says elements.now))
        (string_bytes out.old) (string_bytes out.new)) }
{
    push_frame(out, width, height)?;
    push_elements(out, elements)?;
    push_end(out)
}
